//! The periods and rooms that the yes-facts of a path pin, and the facts on the path, from tables.
#![tactic(auto)]

mod adding;
mod bit_places;
mod fact_table;
mod listing;
mod pinning;
mod pins;
mod places;
mod sets;

pub use pins::Pins;
