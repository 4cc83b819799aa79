//! The least that a group with prices pays in a relaxed timetable.
#![tactic(auto)]

mod courses;
mod fault;
mod fold;
mod group;
mod laws;
mod moves;
mod week;
mod whole_week;
mod width;
mod work;

pub use courses::is_concerned;
pub use fault::PricedFault;
pub use group::least_of_group;
pub use laws::least_plans_are_least_timetables;
pub use moves::{PricedMove, priced_moves_of};
pub use whole_week::least_week;
pub use width::{MAX_GROUP_COURSES, MAX_GROUP_CURRICULA};
pub use work::{MAX_GROUP_STEPS, MAX_RELAXATIONS, MAX_STEPS, PricedWork};
