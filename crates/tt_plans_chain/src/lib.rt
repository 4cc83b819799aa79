//! Changes of a plan: Kempe chains between two slots, and new homes. Each is made if it costs no more than a limit. A chain leaves no level
//! below 0 that was not so before and lower; that this is so isn't proved.
#![tactic(auto)]

mod chain;
mod home;
mod linking;
mod weighing;

pub use chain::Chain;
pub use home::change_home;
