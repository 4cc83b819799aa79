//! Plans the lectures of a few courses again, at least cost while all others remain. Nothing is proved about the cost of a plan.
#![tactic(auto)]

mod board;
mod folding;
mod letters;
mod placing;
mod present;
mod replanner;
mod searching;
mod spelling;

pub use replanner::{Replanner, can_replan};
