//! The relation of each course to those of the group.

use crate::group::Group;
use crate::places::put;
use crate::reading::{course_count, curricula_of, is_conflict, members_of};
use std::alloc::{AllocError, Global};
use tt_occupancy::Occupied;

/// The maximum number of curricula of a group's courses.
const MOST_CURRICULA: u32 = 128;

/// The relation of a course to those of the group.
#[derive(Clone, Copy)]
pub struct Link {
    /// Its curricula among those of the group, as a set.
    pub curricula: u128,
    /// The members that it conflicts with, as a set.
    pub excluded: u8,
    /// Its own number as a member, if it is one, as a set.
    pub member: u8,
}

impl Link {
    const NONE: Link = Link {
        curricula: 0,
        excluded: 0,
        member: 0,
    };
}

/// The links of all courses.
#[derive(Drop)]
pub struct Links {
    links: Vec<Link>,
    /// Whether each curriculum has a bit.
    is_known: Vec<bool>,
    /// The number of curricula that have a bit.
    known: u32,
}

impl Links {
    /// Makes the links of this many courses, none of them linked yet. Fails if memory runs out.
    pub fn new(alloc: Global, courses: u32, curricula: u32) -> Result<Links, AllocError> {
        Ok(Links {
            links: vec![in alloc; Link::NONE; courses as usize]?,
            is_known: vec![in alloc; false; curricula as usize]?,
            known: 0,
        })
    }

    /// Returns the link of a course.
    pub fn get(&self, course: u32) -> Link {
        self.links
            .get(course as usize)
            .copied()
            .unwrap_or(Link::NONE)
    }

    fn clear(&mut self) {
        self.links.fill(Link::NONE);
        self.is_known.fill(false);
        self.known = 0;
    }

    /// Returns a bit for a curriculum that has none yet.
    fn next_bit(&mut self, curriculum: u32) -> Option<u128> {
        let index = curriculum as usize;
        if self.is_known.get(index).copied().unwrap_or(true) {
            return None;
        }
        put(&mut self.is_known, index, true);
        let bit = 1u128.checked_shl(self.known).unwrap_or(0);
        self.known = self.known.saturating_add(1);
        Some(bit)
    }

    /// Gives a curriculum a bit, which is then set for each of its courses.
    fn know(&mut self, occupied: &Occupied<'_, '_>, curriculum: u32) {
        let Some(bit) = self.next_bit(curriculum) else {
            return;
        };
        for course in members_of(occupied, curriculum) {
            let mut link = self.get(*course);
            link.curricula |= bit;
            put(&mut self.links, *course as usize, link);
        }
    }

    /// Marks the courses that conflict with a member.
    fn exclude(&mut self, occupied: &Occupied<'_, '_>, course: u32, set: u8) {
        for other in 0..course_count(occupied) {
            if is_conflict(occupied, course, other) {
                let mut link = self.get(other);
                link.excluded |= set;
                put(&mut self.links, other as usize, link);
            }
        }
    }

    fn add(&mut self, occupied: &Occupied<'_, '_>, course: u32, set: u8) {
        for curriculum in curricula_of(occupied, course) {
            self.know(occupied, *curriculum);
        }
        self.exclude(occupied, course, set);
        let mut link = self.get(course);
        link.member = set;
        put(&mut self.links, course as usize, link);
    }

    /// Links all courses to a group. Returns whether the number of its curricula is within the limit.
    pub fn set(&mut self, occupied: &Occupied<'_, '_>, group: &Group) -> bool {
        self.clear();
        for member in group.members() {
            self.add(occupied, member.course, member.set);
        }
        self.known <= MOST_CURRICULA
    }
}
