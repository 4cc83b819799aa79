//! The limits of a search.

/// The maximum number of nodes of its tree that a search may open.
pub const MAX_OPENED: u32 = 65_536;

/// The maximum number of nodes of its tree then: the opened ones, and the children of the last ones, which wait.
pub const MAX_TREE: u32 = 131_071;

/// The maximum number of steps of the descent that a search begins with.
pub const FIRST_STEPS: u64 = 10_000;
