//! The lectures of a chain.

use std::alloc::{AllocError, Global};
use tt_plans::{Facts, Plan};
use tt_plans_tables::put;

/// The maximum number of lectures of a chain.
const MOST_LINKS: usize = 16;

/// A lecture of a chain.
#[derive(Clone, Copy)]
pub struct Link {
    pub lecture: u32,
    pub course: usize,
    /// Whether it leaves the first slot for the second, and not the second for the first.
    pub leaves: bool,
}

impl Link {
    const NONE: Link = Link {
        lecture: 0,
        course: 0,
        leaves: false,
    };
}

/// The two slots of a chain.
#[derive(Clone, Copy)]
pub struct Span {
    pub first: usize,
    pub second: usize,
}

impl Span {
    /// Returns the slots that a lecture leaves and enters.
    pub fn ends(self, link: Link) -> (usize, usize) {
        if link.leaves {
            (self.first, self.second)
        } else {
            (self.second, self.first)
        }
    }
}

/// The lectures of a chain, in the order in which they were found.
#[derive(Drop)]
pub struct Links {
    links: [Link; MOST_LINKS],
    len: usize,
    /// The number of the chain in which each lecture was last found.
    marks: Vec<u64>,
    chain: u64,
}

impl Links {
    /// Returns an empty chain of a plan with this many lectures. Fails if memory runs out.
    pub fn new(alloc: Global, lectures: usize) -> Result<Links, AllocError> {
        Ok(Links {
            links: [Link::NONE; MOST_LINKS],
            len: 0,
            marks: vec![in alloc; 0u64; lectures]?,
            chain: 0,
        })
    }

    /// Returns the lectures.
    pub fn all(&self) -> &[Link] {
        self.links.get(..self.len).unwrap_or(&[])
    }

    /// Adds a lecture that isn't in the chain yet. Returns whether there was a place for it.
    fn add(&mut self, link: Link) -> bool {
        let index = link.lecture as usize;
        if self.marks.get(index).copied().unwrap_or(0) == self.chain {
            return true;
        }
        if let Some(place) = self.links.get_mut(self.len) {
            *place = link;
            self.len = self.len.saturating_add(1);
            put(&mut self.marks, index, self.chain);
            return true;
        }
        false
    }

    /// Adds the lectures in a slot that conflict with a course. Returns whether there was a place for all.
    fn pull(&mut self, facts: &Facts, plan: &Plan<'_, '_>, link: Link, slot: usize) -> bool {
        let conflicts = facts.conflicts.row(link.course);
        for (word, (conflicts, taught)) in conflicts.iter().zip(plan.taught_in(slot)).enumerate() {
            let mut rivals = *conflicts & *taught;
            for _ in 0..rivals.count_ones() {
                let course = word
                    .wrapping_mul(64)
                    .wrapping_add(rivals.trailing_zeros() as usize);
                rivals &= rivals.wrapping_sub(1);
                if let Some(lecture) = plan.lecture_of(course, slot)
                    && !self.add(Link {
                        lecture,
                        course,
                        leaves: !link.leaves,
                    })
                {
                    return false;
                }
            }
        }
        true
    }

    /// Finds the lectures that change sides with a lecture of the first slot. Returns whether they can: none is barred in its new slot,
    /// and they are few enough.
    pub fn find(&mut self, facts: &Facts, plan: &Plan<'_, '_>, lecture: u32, span: Span) -> bool {
        self.len = 0;
        self.chain = self.chain.wrapping_add(1);
        self.add(Link {
            lecture,
            course: facts.course_of(lecture),
            leaves: true,
        });
        for next in 0..MOST_LINKS {
            if next >= self.len {
                break;
            }
            let link = self.links.get(next).copied().unwrap_or(Link::NONE);
            let (_, to) = span.ends(link);
            if facts.is_barred(link.course, to) || !self.pull(facts, plan, link, to) {
                return false;
            }
        }
        true
    }
}
