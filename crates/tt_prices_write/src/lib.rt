//! Groups with prices, and rents of rooms, to text.
#![tactic(auto)]

mod amounts;
mod items;
#[cfg(test)]
mod tests;
mod writing;

pub use writing::write_prices;
