//! Tables of counts over the entries of a timetable, and laws of what one entry adds to each count.
#![tactic(auto)]

mod grid;
mod laws;
mod links;
mod marked;
mod spread;
mod tables;
mod week;

pub use laws::{exchanged_entries_change_by_weights, order_does_not_count};
pub use links::Links;
pub use marked::{Marked, put};
pub use spread::Spread;
pub use tables::Tables;
pub use week::Week;
