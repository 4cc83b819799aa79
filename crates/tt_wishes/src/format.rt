//! The limits of wishes.

/// The maximum number of wishes of a file.
pub const MAX_WISHES: usize = 4096;

/// The maximum number of facts that wishes put at the root of a tree: half of those that a path may have.
pub const MAX_ROOT: usize = 32_768;
