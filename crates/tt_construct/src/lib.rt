//! A first timetable of an instance.
#![tactic(auto)]

mod choosing;
mod constructing;
mod counts;
mod filling;
mod instance_data;
mod order;
mod periods;
mod place;
mod placed;
mod planning;
mod ranking;
mod repairing;
mod seating;

pub use constructing::construct;
