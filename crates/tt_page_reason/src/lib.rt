//! What a page says if a bound holds, with the courses of a plain reason why no feasible timetable exists.
#![tactic(auto)]

mod explaining;

pub use explaining::explain_bound;
