//! Watches of a search in rounds.

use crate::week::Week;
use tt_instance::Instance;
use tt_leaf::Bound;
use tt_table::Entry;
use tt_watch::{Progress, Unwatched, Watch};

/// Watches a search in rounds, and may take its results on the way. Nothing is promised about when it is asked.
pub trait WatchRounds: Watch {
    ghost use Rattle.tt_best.specs.Weeks.{IsWeek};

    /// Sees that a round begins. The first one is round 1; `most` is the maximum number of rounds.
    fn see_round(&mut self, round: u64, most: u64);

    /// Checks whether the result so far is to be taken now.
    fn is_keeping(&mut self) -> bool;

    /// Receives the result so far.
    fn keep(&mut self, instance: &Instance<'_>, week: &Week)
        requires { IsWeek instance.now week.now };
}

impl WatchRounds for Unwatched {
    fn see_round(&mut self, _round: u64, _most: u64) {}

    fn is_keeping(&mut self) -> bool {
        false
    }

    fn keep(&mut self, _instance: &Instance<'_>, _week: &Week) {}
}

/// Ends a search for a timetable once the best one breaks no hard rule and its cost is a bound.
pub struct Aiming<'w, W: Watch> {
    bound: Bound,
    is_met: bool,
    watch: &'w mut W,
}

impl<'w, W: Watch> Drop for Aiming<'w, W> {
    fn drop(self) {
        let Aiming {
            bound: _,
            is_met: _,
            watch: _,
        } = self;
    }
}

impl<'w, W: Watch> Aiming<'w, W> {
    /// Returns a watch that ends a search by this bound, or when the given watch ends it.
    pub fn new(bound: Bound, watch: &'w mut W) -> Aiming<'w, W> {
        Aiming {
            bound,
            is_met: false,
            watch,
        }
    }
}

impl<'w, W: Watch> Watch for Aiming<'w, W> {
    ghost use Rattle.std.specs.Prelude.{⊤};

    ghost has_ended = { λ _. ⊤ };

    fn see(&mut self, progress: Progress, best: &[Entry]) {
        if let Some(pair) = progress.best {
            self.is_met = pair.hard == 0 && self.bound == Bound::AtLeast(pair.cost);
        }
        self.watch.see(progress, best);
    }

    fn is_over(&mut self) -> bool {
        self.is_met || self.watch.is_over()
    }
}
