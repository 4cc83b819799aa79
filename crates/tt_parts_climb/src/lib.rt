//! Prices of groups and rents of rooms that get better step by step, and changes of groups that are tried at these prices.
#![tactic(auto)]

mod candidates;
mod climb;
mod limit;
mod pace;
mod rents;
mod size;
mod trial;

pub use candidates::list_candidates;
pub use climb::{Climb, End};
pub use limit::limits_of;
pub use size::{Size, is_too_much};
pub use trial::{Room, Trial, try_change};
