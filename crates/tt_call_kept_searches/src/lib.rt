//! The calls that search for the best timetable that keeps wishes, and for proofs about all that do.
#![tactic(auto)]

mod answer;
mod answering;
mod calling;
mod reading;
mod searching;
mod solve_answer;
mod solving;

pub use calling::best_kept;
pub use solving::solve_kept;
pub use tt_call_kept::{KeptFault, KeptFiles};
pub use tt_call_searches::TreeEffort;
