//! What the improvement of a first timetable is given.

use crate::best::Turns;

/// The seed of an improvement, its goal and its turns.
#[derive(Clone, Copy, Debug)]
pub struct Improvement {
    pub seed: u64,
    /// The cost at which the improvement ends.
    pub goal: u64,
    pub turns: Turns,
}
