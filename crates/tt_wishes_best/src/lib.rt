//! A search for the best timetable that keeps wishes, together with proofs of a lower bound for those that do.
#![tactic(auto)]

mod bounds;
mod comparing;
mod limit;
mod searching;
mod solving;
mod trying;
mod watch;
mod wishing;

pub use limit::MAX_KEPT;
pub use searching::find_best_kept;
pub use solving::{Solved, solve_kept};
pub use tt_best::{Rounds, Start, Week};
pub use watch::WatchKept;
pub use wishing::Wishing;
