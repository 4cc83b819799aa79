//! Descriptions of an instance or a solution, what should be checked, and why there is no timetable, in words for people.
#![tactic(auto)]

mod advice;
mod alike;
mod explained;
mod impossible;
mod inspected;
mod lists;
mod scored;
mod shortages;

pub use explained::{explain_shortages, explain_tree};
pub use impossible::put_impossible;
pub use inspected::{Inspected, inspect_instance, inspect_solution};
