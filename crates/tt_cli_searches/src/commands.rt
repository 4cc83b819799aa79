//! The commands, one file each.

pub mod improve;
pub mod parts;
