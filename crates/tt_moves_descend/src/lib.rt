//! Descents: sequences of steps that each lower the pair of hard count and cost, until no such step is left.
#![tactic(auto)]

mod compact;
mod descending;
mod idle;
mod moving;
mod resting;
mod swapping;
mod trying;

pub use descending::{Descent, descend, descend_in};
