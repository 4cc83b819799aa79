//! Bounds of groups, part 2: the tables of all days, folded into one table of the whole week.
#![tactic(auto)]

mod digits;
mod fault;
mod fold;
mod moves;
mod state;
mod week;

pub use digits::{Digits, MAX_PLACES};
pub use fault::WeekFault;
pub use moves::{Move, moves_of};
pub use state::{State, Step, advance, state_at};
pub use week::week_holds;
