//! A timetable as a table for spreadsheets, and weeks of it as calendars.
#![tactic(auto)]

mod calendar;
mod dates;
mod digits;
mod escaping;
mod folding;
mod laws;
mod names;
mod quoting;
mod table;
mod term;
mod times;
mod week;

pub use calendar::write_calendar;
pub use laws::{fields_are_apart, names_end_no_line};
pub use table::write_table;
pub use term::{Lengths, Term, TermFault};
pub use week::Week;
