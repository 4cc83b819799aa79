//! What it costs to move a lecture, and how long to search.

/// The prices of a lecture that isn't where the older timetable has it.
#[derive(Clone, Copy, Debug, PartialEq, Eq)]
pub struct Stay {
    /// The price of a lecture that left its period.
    pub period: u32,
    /// The price of a lecture that kept its period and left its room.
    pub room: u32,
}

/// A search near an older timetable: its seed, the number of steps of each run, the number of runs, and the prices.
#[derive(Clone, Copy, Debug, PartialEq, Eq)]
pub struct Search {
    pub seed: u64,
    pub steps: u64,
    pub runs: u64,
    pub stay: Stay,
}
