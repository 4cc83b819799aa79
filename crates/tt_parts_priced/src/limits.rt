//! Limits on the size of a group.

/// The maximum numbers of sets in which no two courses conflict, of states of the week, of edges of one layer, and of edges of all days and
/// the week.
#[derive(Clone, Copy, Debug)]
pub struct Limits {
    pub sets: usize,
    pub states: u64,
    pub edges: usize,
    pub steps: u64,
}
