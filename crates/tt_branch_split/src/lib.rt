//! The choice of a pattern to split a node by.
#![tactic(auto)]

mod choice;
mod course_set;
mod free;
mod leeway;
mod neighbours;
mod prospects;
mod strong;

pub use choice::choose_split;
