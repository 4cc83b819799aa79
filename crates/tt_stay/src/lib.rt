//! Timetables that are better if each lecture that left its place in an older one has a price.
#![tactic(auto)]

mod drawing;
mod homes;
mod nearest;
mod prices;
mod searching;
mod stay;
mod staying;
mod weight;
mod writing;

pub use drawing::Guide;
pub use homes::Homes;
pub use prices::{Prices, Shift};
pub use stay::{Search, Stay};
pub use staying::{Near, improve_near, search_in_runs};
pub use weight::{Weight, weigh};
pub use writing::write_weight;
