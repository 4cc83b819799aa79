//! Plain reasons why an instance has no feasible timetable.
#![tactic(auto)]

mod find;

pub use find::find_reason;
