//! Completes timetables that lack lectures.
#![tactic(auto)]

mod adding;
mod completing;
mod fault;
mod missing;
mod suiting;

pub use completing::complete;
pub use fault::CompleteFault;
