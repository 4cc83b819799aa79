//! The time limit of a search.

ghost use Rattle.std.specs.Prelude.{◌≡◌, IsTrue, true};

use std::rt::Clock;

/// The number of milliseconds of a second.
const MILLISECONDS: u64 = 1_000;

/// Returns the milliseconds of a clock that only goes forward; `None` if it can't be read.
pub fn milliseconds<R: Clock>(rt: &R) -> Option<u64> {
    let now = rt.monotonic().ok()?;
    u64::try_from(now.as_millis()).ok()
}

/// The time at which a search has to end.
#[derive(Clone, Copy, Debug)]
pub struct TimeLimit {
    end: Option<u64>,
    /// Whether a search was asked to end.
    pub is_over: bool,
}

impl TimeLimit {
    /// Returns the end of this many seconds from now on; without a number, there is no end.
    pub fn new<R: Clock>(rt: &R, seconds: Option<u64>) -> TimeLimit {
        let end = seconds.map(|seconds| {
            let now = milliseconds(rt).unwrap_or(0);
            now.saturating_add(seconds.saturating_mul(MILLISECONDS))
        });
        TimeLimit {
            end,
            is_over: false,
        }
    }

    /// Checks whether the end has come. If the clock can't be read any more, it has.
    pub fn has_come<R: Clock>(&mut self, rt: &R) -> bool
        ensures { IsTrue result → self.new.is_over ≡ true }
    {
        if let Some(end) = self.end
            && milliseconds(rt).is_none_or(|now| end <= now)
        {
            self.is_over = true;
        }
        self.is_over
    }
}
