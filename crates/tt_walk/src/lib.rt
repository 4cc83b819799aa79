//! A walk through timetables, from step to step that is accepted, and the best timetable on the way.
#![tactic(auto)]

mod acceptance;
mod best;
mod cell_entries;
mod cooling;
mod drawing;
mod logarithm;
mod open;
mod pair;
mod phases;
mod places;
mod random;
mod sampling;
mod schedule;
mod settled;
mod span;
mod standing;
mod violations;
mod walking;

pub use best::Best;
pub use cooling::{Cooling, samples};
pub use phases::{Phase, phases_for};
pub use sampling::entry_to_move;
pub use schedule::Schedule;
pub use settled::is_settled;
pub use span::Span;
pub use standing::Standing;
pub use walking::{Walker, walk};
