//! Leaves of proofs of lower bounds, and their claims.
#![tactic(auto)]

mod leaf;
mod lists;

pub use leaf::{Bound, Claim, ClaimList, Leaf};
pub use lists::{CourseList, PriceList};
