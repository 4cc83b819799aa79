//! A group as lists.

use std::alloc::{AllocError, Global};
use tt_parts_priced::Targets;

/// The curricula of a group, the courses whose working days count, and the courses whose lectures aren't counted.
#[derive(Debug, Drop)]
pub struct Draft {
    pub curricula: Vec<u32>,
    pub courses: Vec<u32>,
    pub uncounted: Vec<u32>,
}

impl Draft {
    /// Returns a group of these curricula, in which all lectures are counted.
    pub fn of(alloc: Global, curricula: Vec<u32>) -> Draft {
        Draft {
            curricula,
            courses: Vec::new(alloc),
            uncounted: Vec::new(alloc),
        }
    }

    /// Returns the same group.
    pub fn copy(&self, alloc: Global) -> Result<Draft, AllocError> {
        Ok(Draft {
            curricula: Vec::from_slice(alloc, &self.curricula)?,
            courses: Vec::from_slice(alloc, &self.courses)?,
            uncounted: Vec::from_slice(alloc, &self.uncounted)?,
        })
    }

    /// Returns the lists.
    pub fn targets(&self) -> Targets<'_> {
        Targets {
            curricula: &self.curricula,
            courses: &self.courses,
            further: &[],
            uncounted: &self.uncounted,
        }
    }
}
