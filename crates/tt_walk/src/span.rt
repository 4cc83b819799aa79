//! Reports of a walk to the watch of its search, and its end.

use crate::best::Best;
use tt_watch::{Progress, Unit, Watch};

/// The number of steps between two reports to the watch, and between two questions whether the search is to end.
const STEPS_BETWEEN: u64 = 256;

/// The position of a walk among the steps of a search.
#[derive(Clone, Copy)]
pub struct Span {
    /// The number of steps that were made before the walk.
    pub before: u64,
    /// The maximum number of steps of the search.
    pub limit: u64,
}

impl Span {
    /// Returns the position once this many more steps were made.
    pub fn after(self, made: u64) -> Span {
        Span {
            before: self.before.saturating_add(made),
            limit: self.limit,
        }
    }

    /// Reports a walk that has made this many steps, at intervals.
    pub fn show<W: Watch>(self, watch: &mut W, made: u64, best: &Best) {
        if made % STEPS_BETWEEN == 0 {
            self.tell(watch, made, best);
        }
    }

    /// Asks the watch of a walk that has made this many steps whether the search is to end, at intervals.
    pub fn is_over<W: Watch>(self, watch: &mut W, made: u64) -> bool {
        made % STEPS_BETWEEN == 0 && watch.is_over()
    }

    /// Reports a walk that has made this many steps.
    pub fn tell<W: Watch>(self, watch: &mut W, made: u64, best: &Best) {
        watch.see(
            Progress {
                unit: Unit::Steps,
                done: self.before.wrapping_add(made),
                limit: self.limit,
                best: Some(best.pair),
                bound: None,
                tried: None,
            },
            &best.entries,
        );
    }
}
