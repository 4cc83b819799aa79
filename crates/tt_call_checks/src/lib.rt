//! The calls that read files and check them.
#![tactic(auto)]

mod calls;
mod lines;

pub use calls::bound::bound;
pub use calls::check::check;
pub use calls::check_sum::{check_sum, summed_bound};
pub use calls::sum::sum;
pub use calls::upgrade::upgrade;
pub use calls::validate::{score_text, validate};
pub use lines::{bound_line, broken_line, put_count, yes_line};
