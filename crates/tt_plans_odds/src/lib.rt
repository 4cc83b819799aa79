//! Odds in whole numbers: the logarithm of a chance is counted in nats, of which each is 1,024 of the units here. So what is drawn is the
//! same on every machine.
#![tactic(auto)]

mod dice;
mod heat;
mod logarithms;

pub use dice::{CERTAIN, Dice};
pub use heat::{Heat, POINT};
pub use logarithms::{NAT, logarithm};
