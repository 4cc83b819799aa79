//! The targets that no group has yet.

use crate::draft::Draft;
use std::alloc::{AllocError, Global};
use tt_instance::Instance;

/// Marks of the curricula and the courses that are free.
#[derive(Drop)]
pub struct Free {
    curricula: Vec<bool>,
    courses: Vec<bool>,
}

fn mark(marks: &mut [bool], numbers: &[u32], value: bool) {
    for number in numbers {
        if let Some(mark) = marks.get_mut(*number as usize) {
            *mark = value;
        }
    }
}

fn is_marked(marks: &[bool], number: u32) -> bool {
    marks.get(number as usize).is_some_and(|mark| *mark)
}

impl Free {
    /// Returns marks with all targets free.
    pub fn all(alloc: Global, instance: &Instance<'_>) -> Result<Free, AllocError> {
        Ok(Free {
            curricula: vec![in alloc; true; instance.curricula() as usize]?,
            courses: vec![in alloc; true; instance.courses() as usize]?,
        })
    }

    /// Marks the targets of a draft as taken.
    pub fn take(&mut self, draft: &Draft) {
        mark(&mut self.curricula, &draft.curricula, false);
        mark(&mut self.courses, &draft.courses, false);
    }

    /// Marks the targets of a draft as free again.
    pub fn give_back(&mut self, draft: &Draft) {
        mark(&mut self.curricula, &draft.curricula, true);
        mark(&mut self.courses, &draft.courses, true);
    }

    /// Checks whether no group has taken a curriculum.
    pub fn has_curriculum(&self, curriculum: u32) -> bool {
        is_marked(&self.curricula, curriculum)
    }

    /// Checks whether no group has taken a course.
    pub fn has_course(&self, course: u32) -> bool {
        is_marked(&self.courses, course)
    }

    /// Returns the free curricula.
    pub fn curricula(&self, alloc: Global) -> Result<Vec<u32>, AllocError> {
        let mut numbers = Vec::new(alloc);
        for (number, is_free) in self.curricula.iter().enumerate() {
            if let Ok(number) = u32::try_from(number)
                && *is_free
            {
                numbers.push(number)?;
            }
        }
        Ok(numbers)
    }
}
