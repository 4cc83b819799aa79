//! The check of a group's bound.
#![tactic(auto)]

mod availability;
mod check;
mod courses;
mod days;
mod fault;
mod lists;
mod shape;
mod width;

pub use check::{MAX_RELAXATIONS, MAX_SEQUENCES, MAX_TRIES, Work, check_group};
pub use fault::GroupFault;
pub use width::{GROUP_COURSES, GROUP_CURRICULA, GROUP_LECTURES, GROUP_VALUE};
