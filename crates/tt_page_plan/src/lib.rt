//! A timetable of an instance as its page needs it: groups of entries, counts, weeks, and links.
#![tactic(auto)]

mod counts;
mod groups;
mod links;
mod marks;
mod members;
mod name;
mod order;
mod plan;
mod week;

pub use counts::{
    days_of, entries_of, is_taught_in, lectures_off, missing_days, other_rooms, periods_of,
};
pub use links::{put_cell_link, put_course_link, put_teacher_link, put_week_link, put_when_link};
pub use marks::{is_isolated, is_unavailable};
pub use name::put_name;
pub use plan::Plan;
pub use week::{caption_of, course_name, is_in_week, section_of, teacher_of, title_of};
