//! Searches for groups whose bounds add up.
#![tactic(auto)]

mod claims;
mod cores;
mod draft;
mod finding;
mod free;
mod group_values;
mod growing;
mod guide;
mod merging;
mod order;
mod packing;
mod writing;

pub use finding::{GroupSearch, find_groups};
pub use writing::{KnownProof, write_all, write_groups};
