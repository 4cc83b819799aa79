//! The calls, one file each.

pub mod bound;
pub mod check;
pub mod check_sum;
pub mod sum;
pub mod upgrade;
pub mod validate;
