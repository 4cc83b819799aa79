//! A search for the best timetable, together with proofs of a lower bound.
#![tactic(auto)]

mod bounds;
mod searching;
mod start;
mod watch;
mod week;

pub use bounds::search_bounds;
pub use searching::{FIRST_NODES, Rounds, find_best, nodes_of, seed_of, steps_of};
pub use start::{MOST_TREE_NODES, Start, parts_of_tree, tree_nodes};
pub use watch::{Aiming, WatchRounds};
pub use week::Week;
