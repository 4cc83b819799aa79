//! The courses whose lectures are planned again.

use crate::drawing::{at_most, one_of};
use crate::reading::{curricula_of, members_of};
use rand_pcg::Pcg32;
use tt_instance::Instance;
use tt_occupancy::Occupied;

/// The maximum number of courses of a group.
pub const MOST_MEMBERS: usize = 4;

/// The maximum number of states of a group's week.
pub const MOST_STATES: u32 = 2_048;

/// The maximum number of lectures of a member.
const MOST_LECTURES: u32 = 60;

/// The number of tries to find another course, for each place in the group.
const TRIES: u32 = 4;

/// A course of the group. A state of a week is a number whose digits are the lectures of each member so far, and then its crowded lectures.
#[derive(Clone, Copy)]
pub struct Member {
    pub course: u32,
    /// The set of this member alone.
    pub set: u8,
    /// One lecture of it, in a word with a byte for each member.
    pub unit: u32,
    pub lectures: u32,
    /// The number of crowded lectures (on a day with another lecture of the course) that cost nothing.
    pub slack: u32,
    /// The amount that another lecture adds to the state.
    pub stride: u32,
    /// The amount that another crowded lecture adds to the state.
    pub crowd_stride: u32,
}

impl Member {
    const NONE: Member = Member {
        course: 0,
        set: 0,
        unit: 0,
        lectures: 0,
        slack: 0,
        stride: 0,
        crowd_stride: 0,
    };

    /// Returns a course as a member, if it can be planned.
    fn of(instance: &Instance<'_>, course: u32) -> Option<Member> {
        if course >= instance.courses() {
            return None;
        }
        let lectures = instance.lectures(course);
        if lectures > MOST_LECTURES {
            return None;
        }
        Some(Member {
            course,
            lectures,
            slack: lectures.saturating_sub(instance.min_days(course)),
            ..Member::NONE
        })
    }

    /// Returns the number of values of its digits together.
    fn states(self) -> u32 {
        let counts = self.lectures.saturating_add(1);
        counts.saturating_mul(self.slack.saturating_add(1))
    }
}

/// The courses whose lectures are planned again.
#[derive(Clone, Copy)]
pub struct Group {
    members: [Member; MOST_MEMBERS],
    len: u32,
    /// The number of states.
    pub states: u32,
}

impl Group {
    pub const EMPTY: Group = Group {
        members: [Member::NONE; MOST_MEMBERS],
        len: 0,
        states: 1,
    };

    /// Returns the members.
    pub fn members(&self) -> &[Member] {
        self.members.get(..self.len as usize).unwrap_or(&[])
    }

    /// Returns the number of sets of members.
    pub fn sets(&self) -> u8 {
        1u8.wrapping_shl(self.len)
    }

    /// Checks whether no course is in the group.
    pub fn is_empty(&self) -> bool {
        self.len == 0
    }

    fn has(&self, course: u32) -> bool {
        for member in self.members() {
            if member.course == course {
                return true;
            }
        }
        false
    }

    /// Adds a course, if the number of states with it is within the limit.
    fn add(&mut self, instance: &Instance<'_>, course: u32) {
        let Some(member) = Member::of(instance, course) else {
            return;
        };
        let states = self.states.saturating_mul(member.states());
        if self.has(course) || states > MOST_STATES {
            return;
        }
        if let Some(place) = self.members.get_mut(self.len as usize) {
            *place = Member {
                set: 1u8.wrapping_shl(self.len),
                unit: 1u32.wrapping_shl(self.len.wrapping_mul(8)),
                ..member
            };
            self.len = self.len.saturating_add(1);
            self.states = states;
        }
    }

    /// Removes the last member.
    pub fn pop(&mut self) {
        self.len = self.len.saturating_sub(1);
    }

    /// Returns a random course of a curriculum of a member.
    fn neighbour(&self, occupied: &Occupied<'_, '_>, rng: &mut Pcg32) -> Option<u32> {
        let member = one_of(rng, self.members())?;
        let curriculum = one_of(rng, curricula_of(occupied, member.course))?;
        one_of(rng, members_of(occupied, curriculum))
    }

    /// Returns a group of a course and others that share curricula.
    pub fn choose(occupied: &Occupied<'_, '_>, rng: &mut Pcg32, course: u32) -> Group {
        let wanted = at_most(rng, 3).saturating_add(1);
        let mut group = Group::EMPTY;
        group.add(occupied.instance(), course);
        for _ in 0..wanted.saturating_mul(TRIES) {
            if group.len >= wanted {
                break;
            }
            if let Some(course) = group.neighbour(occupied, rng) {
                group.add(occupied.instance(), course);
            }
        }
        group
    }

    /// Assigns each digit of a state its place.
    pub fn number(&mut self) {
        let mut stride: u32 = 1;
        for member in self.members.iter_mut().take(self.len as usize) {
            member.stride = stride;
            stride = stride.saturating_mul(member.lectures.saturating_add(1));
        }
        for member in self.members.iter_mut().take(self.len as usize) {
            member.crowd_stride = stride;
            stride = stride.saturating_mul(member.slack.saturating_add(1));
        }
        self.states = stride;
    }

    /// Returns the lectures of all members, a byte each.
    pub fn all(&self) -> u32 {
        let mut all: u32 = 0;
        for member in self.members() {
            all = all.wrapping_add(member.unit.wrapping_mul(member.lectures));
        }
        all
    }
}
