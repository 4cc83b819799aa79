//! Why a file is refused, in words for people.
#![tactic(auto)]

mod before;
mod excerpt;
mod faulty_place;
mod instance_faults;
mod place;
mod reason;
mod rows;
mod solution_faults;
mod survey;
mod tally;

pub use instance_faults::explain_instance;
pub use place::{Place, place_of};
pub use solution_faults::explain_solution;
