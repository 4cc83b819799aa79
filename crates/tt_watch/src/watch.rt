//! Watches of a search while it runs.

use crate::pair::Pair;
use tt_table::Entry;

/// The unit in which a search counts towards its limit.
#[derive(Clone, Copy, Debug, PartialEq, Eq)]
pub enum Unit {
    Steps,
    Nodes,
}

/// The progress of a search.
#[derive(Clone, Copy, Debug, PartialEq, Eq)]
pub struct Progress {
    pub unit: Unit,
    /// The number of steps or nodes done, and their maximum number.
    pub done: u64,
    pub limit: u64,
    /// The best timetable so far, if there is one.
    pub best: Option<Pair>,
    /// The lower bound so far, in cost points, if the search knows one.
    pub bound: Option<u64>,
    /// The number of curricula of the group that is tried, if the search tries groups.
    pub tried: Option<u64>,
}

/// Watches a search, and may end it. Nothing is promised about what it is shown.
pub trait Watch {
    ghost use Rattle.std.specs.Prelude.{IsTrue};

    /// What holds of a watch that has ended its search.
    ghost has_ended: { Self → Type 0 } = { λ _. ⊥ };

    /// Receives the progress of the search, and the entries of the best timetable so far; none if there is no such timetable.
    fn see(&mut self, progress: Progress, best: &[Entry]);

    /// Checks whether the search is to end with what it has found.
    fn is_over(&mut self) -> bool
        ensures { IsTrue result → has_ended self.new }
    {
        false
    }

    /// Checks whether proofs with this bound are to be taken now.
    fn is_asking(&mut self, _bound: u64) -> bool {
        false
    }

    /// Receives the texts of proofs on the way, whose bounds add up to this one.
    fn take(&mut self, _bound: u64, _proofs: &[Vec<u8>]) {}
}

/// A watch that ignores everything.
#[derive(Clone, Copy, Debug)]
pub struct Unwatched;

impl Watch for Unwatched {
    fn see(&mut self, _progress: Progress, _best: &[Entry]) {}
}
