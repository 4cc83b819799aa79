//! The validator: the score of a timetable, and what a course or an entry adds to it.
#![tactic(auto)]

mod availability;
mod capacity;
mod compactness;
mod conflicts;
mod counts;
mod distinct;
mod lectures;
mod limit;
mod marks;
mod occupancy;
mod scoring;
mod slots;
mod stability;
mod working_days;

pub use capacity::{students_without_seat, without_seat};
pub use counts::Score;
pub use lectures::{entries_of, lectures_off, periods_of};
pub use scoring::score;
pub use stability::other_rooms;
pub use working_days::days_of;
