//! Paths that answer from tables and undo changes by trails.
#![tactic(auto)]

mod both;
mod trail_path;

pub use trail_path::TrailPath;
pub use tt_path::{
    Cell, Fact, MAX_FACTS, Path, PathFault, Pattern, PlainPath, Who, is_none_or_equal,
};
