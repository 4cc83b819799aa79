//! The work that a search may still do.

use tt_watch::Watch;

/// The number of steps after which the watch is asked again.
const STEPS_BETWEEN: u64 = 1_048_576;

/// The steps that a search may still do, and the watch that may end the search before they are used up.
pub struct Allowance<'w, W: Watch> {
    left: u64,
    /// The steps that the current group may not use.
    kept: u64,
    /// The steps until the watch is asked.
    unasked: u64,
    is_ended: bool,
    pub watch: &'w mut W,
}

impl<'w, W: Watch> Drop for Allowance<'w, W> {
    fn drop(self) {
        let Allowance {
            left: _,
            kept: _,
            unasked: _,
            is_ended: _,
            watch: _,
        } = self;
    }
}

impl<'w, W: Watch> Allowance<'w, W> {
    /// Returns an allowance of this many steps.
    pub fn new(steps: u64, watch: &'w mut W) -> Allowance<'w, W> {
        Allowance {
            left: steps,
            kept: 0,
            unasked: STEPS_BETWEEN,
            is_ended: false,
            watch,
        }
    }

    /// Returns the number of steps that are left.
    pub fn left(&self) -> u64 {
        self.left
    }

    /// Checks whether no steps are left.
    pub fn is_used_up(&self) -> bool {
        self.left == 0
    }

    /// Asks the watch whether the search is over; if it is, no steps are left.
    pub fn is_ended(&mut self) -> bool {
        self.unasked = STEPS_BETWEEN;
        if !self.is_ended {
            self.is_ended = self.watch.is_over();
        }
        if self.is_ended {
            self.left = 0;
            self.kept = 0;
        }
        self.is_ended
    }

    /// Begins a group that may use up this many steps.
    pub fn begin_group(&mut self, most: u64) {
        self.kept = self.left.saturating_sub(most);
    }

    /// Uses up steps, and asks the watch from time to time. Returns `false` if the group may use no more.
    pub fn spend(&mut self, steps: u64) -> bool {
        self.left = self.left.saturating_sub(steps).max(self.kept);
        self.unasked = self.unasked.saturating_sub(steps);
        if self.unasked == 0 && self.is_ended() {
            return false;
        }
        self.kept < self.left
    }
}
