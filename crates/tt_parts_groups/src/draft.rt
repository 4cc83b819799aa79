//! Groups that may become claims.

use std::alloc::{AllocError, Global};

/// Curricula and courses in order, a lower bound of their common cost, and the number of states of their table.
#[derive(Drop)]
pub struct Draft {
    pub curricula: Vec<u32>,
    pub courses: Vec<u32>,
    /// The courses that the group concerns: its own and the members of its curricula.
    pub concerned: Vec<u32>,
    pub value: u64,
    pub states: u32,
    /// Whether none of its targets can be removed.
    pub is_core: bool,
}

/// Checks whether two lists have a number in common.
pub fn has_common(first: &[u32], second: &[u32]) -> bool {
    first.iter().any(|number| second.contains(number))
}

/// Returns the numbers of both lists, each once, in order.
pub fn union_of(alloc: Global, first: &[u32], second: &[u32]) -> Result<Vec<u32>, AllocError> {
    let mut all = Vec::from_slice(alloc, first)?;
    for number in second {
        if !all.contains(number) {
            all.push(*number)?;
        }
    }
    all.sort_unstable();
    Ok(all)
}

/// Returns the numbers of a list without one of them.
pub fn without(alloc: Global, numbers: &[u32], gone: u32) -> Result<Vec<u32>, AllocError> {
    let mut others = Vec::from_slice(alloc, numbers)?;
    others.retain(|number| *number != gone);
    Ok(others)
}

impl Draft {
    /// Returns a draft without targets.
    pub fn empty(alloc: Global) -> Draft {
        Draft {
            curricula: Vec::new(alloc),
            courses: Vec::new(alloc),
            concerned: Vec::new(alloc),
            value: 0,
            states: 1,
            is_core: true,
        }
    }

    /// Checks whether it has no targets.
    pub fn is_empty(&self) -> bool {
        self.curricula.is_empty() && self.courses.is_empty()
    }

    /// Checks whether two drafts have a target in common.
    pub fn has_common_target(&self, other: &Draft) -> bool {
        has_common(&self.curricula, &other.curricula) || has_common(&self.courses, &other.courses)
    }
}
