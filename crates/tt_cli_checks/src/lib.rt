//! The files of the commands that answer without a search.
#![tactic(auto)]

mod built_in;
mod commands;
mod kept;
mod timetable;

pub use commands::bound::answer_bound;
pub use commands::calendar::answer_calendar;
pub use commands::changes::answer_changes;
pub use commands::check::{answer_check, answer_stored};
pub use commands::inspect::answer_inspect;
pub use commands::page::answer_page;
pub use commands::report::report_to;
pub use commands::sum::answer_sum;
pub use commands::table::answer_table;
pub use commands::upgrade::answer_upgrade;
pub use commands::validate::answer_validate;
