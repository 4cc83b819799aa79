//! The calls that search for timetables and for proofs.
#![tactic(auto)]

mod calls;

pub use calls::best::{BestAnswer, BestSearch, WatchBest, best, found_line, missing_line, page_of};
pub use calls::given::read_given;
pub use calls::improve::{ImproveSearch, improve};
pub use calls::parts::{PartsAnswer, parts};
pub use calls::solve::{TreeEffort, least_text, line_of, solve};
pub use tt_parts::Effort;
