//! How often something is written on the way.

use crate::limit::milliseconds;
use std::rt::Clock;

/// The minimum number of milliseconds between two writes.
const LEAST_PAUSE: u64 = 1_000;

/// How many times as long as a write the pause after it is.
const PAUSES: u64 = 9;

/// Leaves a pause after each write: a second, and nine times as long as the write took.
#[derive(Clone, Copy, Debug)]
pub struct Pace {
    begun: u64,
    next: u64,
}

impl Pace {
    /// Begins with a pause.
    pub fn new<R: Clock>(rt: &R) -> Pace {
        let begun = milliseconds(rt).unwrap_or(0);
        Pace {
            begun,
            next: begun.saturating_add(LEAST_PAUSE),
        }
    }

    /// Checks whether the pause is over; then a write begins.
    pub fn is_due<R: Clock>(&mut self, rt: &R) -> bool {
        let Some(now) = milliseconds(rt) else {
            return false;
        };
        self.begun = now;
        self.next <= now
    }

    /// Begins the pause after a write.
    pub fn rest<R: Clock>(&mut self, rt: &R) {
        let now = milliseconds(rt).unwrap_or(self.begun);
        let took = now.saturating_sub(self.begun);
        let pause = took.saturating_mul(PAUSES).max(LEAST_PAUSE);
        self.next = now.saturating_add(pause);
    }
}
