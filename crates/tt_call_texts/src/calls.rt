//! The calls, one file each.

pub mod calendar;
pub mod inspect;
pub mod inspect_json;
pub mod page;
pub mod report;
pub mod table;
pub mod validate_json;
