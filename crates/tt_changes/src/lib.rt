//! Which lectures moved from an older timetable to a newer one.
#![tactic(auto)]

mod change;
mod finding;
mod likeness;
mod pairing;
mod writing;

pub use change::{Change, Changes};
pub use finding::find_changes;
pub use writing::write_changes;
