//! The curricula and the courses of a group.

use std::alloc::{AllocError, Global};
use tt_instance::Instance;
use tt_parts_least::courses_of;

/// The curricula of a group, the courses whose working days count, further courses, and the courses whose lectures aren't counted.
#[derive(Clone, Copy, Debug)]
pub struct Targets<'a> {
    pub curricula: &'a [u32],
    pub courses: &'a [u32],
    pub further: &'a [u32],
    pub uncounted: &'a [u32],
}

impl Targets<'_> {
    /// Checks whether the working days of a course count.
    pub fn has_days_of(&self, course: u32) -> bool {
        self.courses.contains(&course)
    }

    /// Checks whether the lectures of a course aren't counted.
    pub fn is_uncounted(&self, course: u32) -> bool {
        self.uncounted.contains(&course)
    }

    /// Returns the courses that the group concerns, in order.
    pub fn concerned(
        &self,
        alloc: Global,
        instance: &Instance<'_>,
    ) -> Result<Vec<u32>, AllocError> {
        let mut own = Vec::from_slice(alloc, self.courses)?;
        for course in self.further {
            if !own.contains(course) {
                own.push(*course)?;
            }
        }
        courses_of(alloc, instance, self.curricula, &own)
    }
}
