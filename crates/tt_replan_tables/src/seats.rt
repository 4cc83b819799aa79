//! Seats for another lecture in a period.

/// An entry that makes room, and the rank to which it moves.
#[derive(Clone, Copy)]
pub struct Evicted {
    pub entry: u32,
    pub rank: u32,
}

/// A seat for a lecture, and its cost.
#[derive(Clone, Copy)]
pub struct Seat {
    pub cost: u32,
    pub rank: u32,
    pub evicted: Option<Evicted>,
}
