//! What a group with prices and a course pay at least, with a timetable that pays so much, for a search: nothing is promised about it.
#![tactic(auto)]

mod day;
mod fields;
mod layer;
mod limits;
mod members;
mod program;
mod sets;
mod shape;
mod tables;
mod targets;
mod terms;
mod week;

pub use limits::Limits;
pub use program::Program;
pub use tables::Tables;
pub use targets::Targets;
pub use terms::{Cell, Offer, Placing, Terms};
