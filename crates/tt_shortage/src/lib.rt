//! Courses that have more lectures than periods, or than rooms in periods, are open to them: reasons why there is no timetable.
#![tactic(auto)]

mod cliques;
mod crowds;
mod find;
mod numbers;
mod openings;
mod placement;
mod shortage;

pub use find::{find_shortage, find_shortages};
pub use shortage::{Contested, Shortage};
