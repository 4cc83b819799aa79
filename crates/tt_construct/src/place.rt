//! The places of a plan's lectures.

/// A room, and a period by its number in the week, day by day.
#[derive(Clone, Copy)]
pub struct Place {
    pub room: u32,
    pub slot: u32,
}
