//! The commands, one file each.

pub mod bound;
pub mod calendar;
pub mod changes;
pub mod check;
pub mod inspect;
pub mod page;
pub mod report;
pub mod sum;
pub mod table;
pub mod upgrade;
pub mod validate;
