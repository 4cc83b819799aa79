//! What a search shows of itself while it runs, and how it is ended.
#![tactic(auto)]

mod pair;
mod watch;

pub use pair::Pair;
pub use watch::{Progress, Unit, Unwatched, Watch};
