//! A timetable with the counts of its entries and its score, which are updated with each change.
#![tactic(auto)]

mod counting;
mod counts;
mod isolation_change;
mod neighbour_counts;
mod occupied;
mod recounting;
mod rescoring;
mod weighing;
mod weight;

pub use isolation_change::IsolationChange;
pub use neighbour_counts::NeighbourCounts;
pub use occupied::{Occupied, Refused};
pub use weighing::one_if;
