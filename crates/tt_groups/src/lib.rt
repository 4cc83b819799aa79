//! Groups: the common cost of some curricula and courses, and the meaning of bounds of that cost.
#![tactic(auto)]

mod entry;
mod group;
mod laws;

pub use entry::{DIGITS, DayEntry};
pub use group::Group;
pub use laws::{
    feasible_timetables_are_relaxed, plans_are_relaxed_timetables, relaxed_timetables_are_plans,
    tables_bound,
};
