//! Timetables that are better if broken wishes count as broken hard rules do.
#![tactic(auto)]

mod breaks;
mod holds;
mod kept;
mod places;
mod prices;
mod searching;
mod weight;

pub use breaks::count_all_breaks;
pub use kept::keeps_all_kept;
pub use searching::{Wished, improve_wished};
pub use tt_stay::{Search, Stay};
pub use weight::{Basis, WishedWeight};
