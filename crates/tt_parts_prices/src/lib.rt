//! Searches for prices between groups that share courses, and for rents of rooms.
#![tactic(auto)]

mod finding;
mod found;
mod growing;
mod places;
mod racing;
mod rents;
mod rents_proof;

pub use finding::{PricesSearch, find_prices};
pub use found::PricesFound;
pub use rents::{Rents, rents_of};
pub use rents_proof::{RentsProof, find_rents};
