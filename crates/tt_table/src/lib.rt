//! Timetables, and the files that spell them.
#![tactic(auto)]

mod fault;
mod faulty;
mod groups;
mod kind;
mod reading;
mod table;
mod writing;

pub use fault::{PushFault, SolutionFault};
pub use faulty::faulty_beginnings_spell_none;
pub use groups::{Group, GroupBy, Groups};
pub use kind::Kind;
pub use reading::read_solution;
pub use table::{MAX_ENTRIES, Timetable};
pub use tt_instance::Cell as Entry;
pub use writing::write_solution;
