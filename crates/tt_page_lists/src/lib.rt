//! The tables of a timetable's counts, and a list for each count above 0.
#![tactic(auto)]

mod grouped;
mod items;
mod lists;
mod odds;
mod reason;
mod rule;

pub use lists::{put_cost_table, put_hard_table, put_lists};
pub use reason::put_next_courses;
pub use rule::Rule;
