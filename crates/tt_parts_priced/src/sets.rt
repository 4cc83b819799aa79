//! The sets of a group's courses in which no two conflict.

use crate::members::Member;
use std::alloc::{AllocError, Global};

/// Courses of which no two conflict, a bit for each; a lecture of each in a packed word; the curricula that they meet, a bit for each; the set
/// without its last course, and that course.
#[derive(Clone, Copy, Debug)]
pub struct Set {
    pub courses: u64,
    pub units: u64,
    pub curricula: u64,
    pub parent: usize,
    pub last: usize,
}

impl Set {
    /// The set without courses.
    pub const EMPTY: Set = Set {
        courses: 0,
        units: 0,
        curricula: 0,
        parent: 0,
        last: usize::MAX,
    };

    /// Returns the set with a course more.
    fn with(&self, parent: usize, last: usize, member: &Member) -> Set {
        Set {
            courses: self.courses | 1 << (last % 64),
            units: self.units.wrapping_add(member.unit),
            curricula: self.curricula | member.curricula,
            parent,
            last,
        }
    }
}

/// Returns every set of the courses in which no two conflict, or `None` if there are more than `most`.
pub fn list_sets(
    alloc: Global,
    members: &[Member],
    most: usize,
) -> Result<Option<Vec<Set>>, AllocError> {
    let mut sets = Vec::new(alloc);
    sets.push(Set::EMPTY)?;
    for (place, member) in members.iter().enumerate() {
        for parent in 0..sets.len() {
            let set = sets.get(parent).copied().unwrap_or(Set::EMPTY);
            if set.courses & member.conflicts == 0 {
                sets.push(set.with(parent, place, member))?;
            }
        }
        if most < sets.len() {
            return Ok(None);
        }
    }
    Ok(Some(sets))
}
