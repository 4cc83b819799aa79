//! The lowest cost of a group of curricula and courses, for a search: nothing is promised about it.
#![tactic(auto)]

mod allowance;
mod day;
mod days;
mod fold;
mod layout;
mod least;
mod sets;

pub use allowance::Allowance;
pub use layout::{Layout, courses_of, lectures_of, members_of};
pub use least::{Aim, Least, least_cost};
