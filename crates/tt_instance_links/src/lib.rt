//! Which curricula each course is in, and which courses conflict with it.
#![tactic(auto)]

mod links;

pub use links::{Conflicts, Curricula};
