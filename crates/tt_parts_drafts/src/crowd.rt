//! How many sets of courses there are in which no two conflict.

use std::alloc::{AllocError, Global};
use tt_instance::Instance;

/// Returns the number of sets of the courses in which no two conflict; `most` and 1 if there are more than `most`.
pub fn count_sets(
    alloc: Global,
    instance: &Instance<'_>,
    courses: &[u32],
    most: usize,
) -> Result<usize, AllocError> {
    let mut sets = vec![in alloc; 0u64; 1]?;
    for (place, course) in courses.iter().enumerate() {
        let mut conflicts: u64 = 0;
        for (other, rival) in courses.iter().enumerate().take(place) {
            if instance.conflict(*course, *rival) {
                conflicts |= 1 << (other % 64);
            }
        }
        for index in 0..sets.len() {
            let set = sets.get(index).copied().unwrap_or(0);
            if set & conflicts == 0 {
                sets.push(set | 1 << (place % 64))?;
            }
            if most < sets.len() {
                return Ok(most.saturating_add(1));
            }
        }
    }
    Ok(sets.len())
}
