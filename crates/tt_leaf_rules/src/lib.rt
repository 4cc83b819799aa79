//! The leaf rules of proofs of lower bounds.
#![tactic(auto)]

mod capacity;
mod checking;
mod claims;
mod days;
mod empty;
mod fault;
mod groups;
mod isolated;
mod laws;
mod limit;
mod number_set;
mod pinned;
mod prices;
mod room_prices;
mod slots;
mod stable;
mod targets;

pub use checking::{holds, leaf_value};
pub use claims::claim_value;
pub use fault::RuleFault;
pub use laws::right_leaves_hold;
pub use slots::{slot_at, slot_count};
