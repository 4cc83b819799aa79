//! The calls, one file each.

pub mod validate_wishes;
