//! Kempe chains: entries of two periods that change periods together.
#![tactic(auto)]

mod kempe;
mod seeking;
mod slots;
mod spreading;
mod turning;

pub use kempe::{Chain, ChainFault};
pub use seeking::chain;
pub use turning::swap_chain;
