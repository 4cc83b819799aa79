//! The calls, one file each.

pub mod best;
pub mod given;
pub mod improve;
pub mod parts;
pub mod solve;
