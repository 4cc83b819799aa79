//! A group of a few courses, the week without their lectures, and what places of their lectures cost. Nothing is proved about these costs.
#![tactic(auto)]

mod drawing;
mod group;
mod links;
mod places;
mod prices;
mod reading;
mod rooms;
mod seating;
mod seats;
mod week;

pub use group::{Group, MOST_MEMBERS, MOST_STATES, Member};
pub use links::{Link, Links};
pub use places::{put, put_next};
pub use prices::{Price, Prices};
pub use reading::{Sizes, course_count, entry_at, sizes_of};
pub use rooms::{MOST_ROOMS, POINT, Rank, Rooms};
pub use seating::Seating;
pub use seats::{Evicted, Seat};
pub use week::{Own, Slot, Week};
