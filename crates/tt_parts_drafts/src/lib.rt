//! Groups made from nothing: which curricula are together, which working days each group has, which lectures it counts, and what each is
//! paid.
#![tactic(auto)]

mod aim;
mod clusters;
mod crowd;
mod draft;
mod drafting;
mod fixed;
mod group;
mod habits;
mod wide;

pub use aim::{Aim, SCALE, points};
pub use clusters::join_curricula;
pub use draft::Draft;
pub use drafting::{count_lectures, give_days};
pub use fixed::{ONE, product, rounded, share, whole};
pub use group::{Group, MOMENTUM, PARTS, drifted, square, within};
pub use wide::widen;
