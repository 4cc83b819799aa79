//! Solutions of an older instance: their entries that still fit, and those that are left out.
#![tactic(auto)]

mod dropping;
mod fitting;
mod listing;
mod reason;
mod row;
mod rows;

pub use dropping::{Kept, drop_misfits};
pub use listing::write_left_out;
pub use reason::{LeftOut, Reason};
pub use row::Row;
