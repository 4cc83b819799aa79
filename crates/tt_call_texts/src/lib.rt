//! The calls that describe a timetable: reports, tables, calendars, pages, also under wishes, advice, and counts as JSON.
#![tactic(auto)]

mod calls;
mod counts;
mod lines;
mod paging;
mod proved_texts;

pub use calls::calendar::{WeekTimes, calendar};
pub use calls::inspect::inspect;
pub use calls::inspect_json::inspect_json;
pub use calls::page::{PageForm, page, proved_page};
pub use calls::report::report;
pub use calls::table::table;
pub use calls::validate_json::validate_json;
pub use paging::{PageTexts, kept_page};
pub use proved_texts::ProvedTexts;
