//! What a yes-fact demands.

use tt_path::Pattern;

/// The pattern of a yes-fact, and the courses that it names: one of them must have a cell that the pattern matches.
#[derive(Clone, Copy)]
pub struct Demand<'a> {
    pub pattern: &'a Pattern,
    pub courses: &'a [u32],
}
