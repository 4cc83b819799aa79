//! Branch and bound.
#![tactic(auto)]

mod best;
mod copying;
mod fitting;
mod improvement;
mod keeping;
mod laws;
mod limit;
mod links;
mod live;
mod moves;
mod nodes;
mod rounds;
mod search;
mod solving;
mod tree_node;
mod visit;
mod watching;

pub use laws::pinned_paths_leave_one_timetable;
pub use limit::{FIRST_STEPS, MAX_OPENED};
pub use solving::{Outcome, Start, solve};
