//! Facts about timetables, and paths of facts.
#![tactic(auto)]

mod facts;
mod path;
mod plain;

pub use facts::{Fact, Pattern, Who, is_none_or_equal};
pub use path::{MAX_FACTS, Path, PathFault};
pub use plain::PlainPath;
pub use tt_instance::Cell;
