//! Searching for proofs whose bounds add up: claims about groups and proofs about the rooms, or groups with prices.
#![tactic(auto)]

mod finding;
mod known;
mod prices;
mod rooms;
mod stronger;
mod strongest;
mod together;

pub use finding::{Effort, Parts, add_up, find_parts};
pub use stronger::better_of;
pub use strongest::add_up_or_best;
pub use together::copy_texts;
