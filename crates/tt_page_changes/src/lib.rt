//! What changed since an older timetable, as its page shows it: a list, and marks in the weeks.
#![tactic(auto)]

mod list;
mod marks;

pub use list::put_changes;
pub use marks::put_marks;
