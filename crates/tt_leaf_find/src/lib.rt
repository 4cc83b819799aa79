//! Leaves that close a node: the claims of positive value, and the search for a right leaf.
#![tactic(auto)]

mod best;
mod crowds;
mod find;
mod grid;
mod group_prices;
mod laws;
mod overfull;
mod pool;
mod priced;
mod prices;
mod rivals;

pub use best::best_claims;
pub use find::find_leaf;
pub use laws::pinned_paths_close;
pub use priced::priced_claims;
pub use tt_leaf::{Bound, Claim, ClaimList, CourseList, Leaf, PriceList};
pub use tt_leaf_rules::{
    RuleFault, claim_value, holds, leaf_value, right_leaves_hold, slot_at, slot_count,
};
