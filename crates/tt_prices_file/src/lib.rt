//! Files of groups with prices, whose groups, terms of courses and rents bound the cost together.
#![tactic(auto)]

mod account;
mod check;
mod claim;
mod fault;
mod laws;
mod least;
mod prices;
mod rents;
mod targets;
mod terms;
mod total;

pub use check::check_prices;
pub use claim::PricesClaim;
pub use fault::PricesFault;
pub use laws::{files_have_one_total, files_hold};
