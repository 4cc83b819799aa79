//! The calls, one file each.

pub mod changed_page;
pub mod changes;
mod said;
