//! Plans: timetables without rooms, with a period for each lecture and a home for each course, and their counts and costs. The slots of a
//! plan keep the rules of periods. Nothing is proved about the other counts: what comes out of a plan is scored again.
#![tactic(auto)]

mod facts;
mod isolation;
mod levels;
mod plan;
mod reading;

pub use facts::{Course, Facts, Place, Sizes};
pub use isolation::{alone_if_freed, alone_if_taken, isolated_on};
pub use levels::Levels;
pub use plan::{CLASH_COST, DAY_COST, ISOLATION_COST, Plan};
