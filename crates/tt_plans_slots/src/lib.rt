//! Which courses are taught in each slot of a plan, without rooms. No two courses of a slot conflict, none is unavailable there, and a slot
//! takes no more courses of a level than it may.
#![tactic(auto)]

mod course_set;
mod levels;
mod slots;
mod spare;
mod tables;

pub use levels::level_of;
pub use slots::Slots;
