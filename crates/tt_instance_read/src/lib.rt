//! The files that spell instances of curriculum-based course timetabling.
#![tactic(auto)]

mod conflicts;
mod courses;
mod curricula;
mod fault;
mod faulty;
mod fields;
mod header;
mod instance;
mod named;
mod parts;
mod rooms;
mod unavailabilities;

pub use fault::{InstanceFault, Word};
pub use faulty::faulty_beginnings_spell_none;
pub use instance::read_instance;
pub use tt_instance::{
    Cell, Instance, MAX_CELLS, MAX_COURSES, MAX_CURRICULA, MAX_DAYS, MAX_LECTURES, MAX_MEMBERS,
    MAX_MIN_DAYS, MAX_PERIODS, MAX_ROOMS, MAX_SEATS, MAX_SLOTS, MAX_UNAVAILABILITIES, Slot,
};
