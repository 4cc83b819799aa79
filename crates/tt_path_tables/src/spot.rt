//! Where a course may have cells.

use tt_instance::Slot;

/// The cells of a course in a period, only with the given room if one is given.
#[derive(Clone, Copy)]
pub struct Spot {
    pub room: Option<u32>,
    pub course: u32,
    pub slot: Slot,
}
