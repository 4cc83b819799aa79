//! Proofs that are read as a whole, and written again in version 2.
#![tactic(auto)]

mod fault;
mod reading;
mod upgrading;

pub use fault::UpgradeFault;
pub use reading::{ReadProof, parse_proof};
pub use upgrading::{Upgraded, upgrade};
