//! Tree proofs, claims about groups, and groups with prices whose bounds add up.
#![tactic(auto)]

mod claimed;
mod fault;
mod groups;
mod groups_fault;
mod laws;
mod one_more;
mod prices;
mod several;
mod summed;
mod table;

pub use claimed::ClaimedTarget;
pub use fault::{FileFault, SumStop};
pub use groups_fault::GroupsFault;
pub use laws::{
    apart_bounds_add, bounds_hold_over, bounds_hold_over_all, group_bounds_hold_over, sums_hold,
};
pub use several::{sum_proofs, sum_proofs_on};
pub use summed::Sum;
pub use table::{Clash, Table};
