//! The courses among which groups are chosen.

use crate::grid::Grid;
use tt_instance::Instance;

/// The courses of an instance, with their live cells and the value of each course alone.
#[derive(Clone, Copy)]
pub struct CoursePool<'a, 'i> {
    pub instance: &'a Instance<'i>,
    pub grid: &'a Grid,
    pub alone: &'a [u64],
}

impl CoursePool<'_, '_> {
    /// Returns the value of a course alone; 0 if the course is out of range.
    pub fn worth_of(&self, course: usize) -> u64 {
        self.alone.get(course).copied().unwrap_or(0)
    }

    /// Returns the total value of the courses of a group, each taken alone.
    pub fn worth_apart(&self, members: &[bool]) -> u64 {
        let mut total: u64 = 0;
        for (course, member) in members.iter().enumerate() {
            if *member {
                total = total.saturating_add(self.worth_of(course));
            }
        }
        total
    }
}
