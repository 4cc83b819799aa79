//! The weeks of the rooms, teachers and curricula as grids, and those of days with a column for each room.
#![tactic(auto)]

mod days;
mod grid;
mod grids;
mod groups;
mod hues;
mod lectures;
mod marks;
mod named;
mod view;

pub use days::put_days;
pub use grids::put_section;
pub use named::{has_week, put_named};
pub use view::View;
