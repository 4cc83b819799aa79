//! Tables of the cells that are left to a path of facts, and what removes cells from them.
#![tactic(auto)]

mod asking;
mod barring;
mod basis;
mod courses;
mod demand;
mod first;
mod killing;
mod periods;
mod places;
mod removing;
mod rooms;
mod spot;

pub use asking::{common_rooms, has_cell, has_period, periods_of};
pub use barring::remove_matched;
pub use basis::Basis;
pub use courses::courses_of;
pub use demand::Demand;
pub use first::first_table;
pub use killing::{kill_by_links, kill_one};
pub use periods::{first_left, is_left, is_left_in, slots_of};
pub use places::cells_word;
pub use removing::{is_cleared, remove_all};
pub use rooms::Rooms;
pub use spot::Spot;
