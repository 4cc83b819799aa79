//! The days of a group with prices: what each costs at least, by the numbers that are counted over the week.
#![tactic(auto)]

mod cheapest;
mod days;
mod entries;
mod layer;
mod letters;
mod node;
mod rules;
mod shape;

pub use days::list_days;
pub use rules::MAX_LECTURES;
pub use shape::Shape;
