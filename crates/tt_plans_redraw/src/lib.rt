//! The lectures of one to three courses that conflict pairwise, drawn again with the odds of all their plans: a cost that is a temperature
//! higher is a nat less likely. Everything else stays. Nothing is proved about the odds.
#![tactic(auto)]

mod board;
mod days;
mod ends;
mod group;
mod redrawer;
mod weeks;

pub use redrawer::{Redrawer, can_redraw};
