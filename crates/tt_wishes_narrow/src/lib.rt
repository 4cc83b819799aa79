//! Instances that wishes narrow, and wishes of which no timetable keeps all.
#![tactic(auto)]

mod clash;
mod clashes;
mod finding;
mod laws;
mod listing;
mod narrowing;
mod pairs;
mod periods;
mod ruling;
mod unavailable;

pub use clash::Clash;
pub use finding::find_clash;
pub use laws::narrowing_keeps;
pub use narrowing::narrow;
