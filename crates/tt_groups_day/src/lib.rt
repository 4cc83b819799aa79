//! Bounds of groups, part 1: the day lists. They give a lower bound of the cost of a group's day, by the lectures of each course on it.
#![tactic(auto)]

mod days;
mod entries;
mod fault;
mod morning;
mod search;
mod sets;
mod shape;
mod space;
mod table;
mod work;

pub use days::list_days;
pub use fault::DaysFault;
pub use morning::{COURSES, CourseSet, fits};
pub use sets::{MAX_SETS, SetsFault, list_sets};
pub use shape::DayShape;
pub use work::DayWork;
