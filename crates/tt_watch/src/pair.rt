//! Pairs of a hard count and a cost.

ghost use Rattle.std.specs.Prelude.{◌↔◌, IsTrue};
ghost use Rattle.tt_watch.specs.Inner.Pairs.{IsLowerPair};

/// The number of hard rules that a timetable breaks, and its cost.
#[derive(Clone, Copy, Debug, PartialEq, Eq)]
pub struct Pair {
    pub hard: u64,
    pub cost: u64,
}

impl Pair {
    /// Returns whether it has a lower hard count, or the same at a lower cost.
    pub fn is_below(self, other: Pair) -> bool
        ensures { IsTrue result ↔ IsLowerPair self other }
    {
        self.hard < other.hard || (self.hard == other.hard && self.cost < other.cost)
    }
}
