//! The phases of a walk.

ghost use Rattle.std.specs.Prelude.{◌+◌, ◌≤◌};

/// A phase of a walk: its end, and its temperatures.
#[derive(Clone, Copy)]
pub struct Phase {
    /// The number of sixteenths of all draws that are made by its end.
    pub end: u64,
    /// The temperature at its beginning, in thousandths of the usual one.
    pub start: u64,
    /// The cost that its last draws accept half of the time, in thousandths of a point.
    pub coldest: u64,
}

/// The phases from a timetable that is far from the best.
const UNSETTLED: [Phase; 3] = [
    Phase {
        end: 2,
        start: 1_000,
        coldest: 100,
    },
    Phase {
        end: 10,
        start: 700,
        coldest: 100,
    },
    Phase {
        end: 16,
        start: 500,
        coldest: 90,
    },
];

/// The phases from a timetable that seems to be near the best.
const SETTLED: [Phase; 2] = [
    Phase {
        end: 2,
        start: 500,
        coldest: 90,
    },
    Phase {
        end: 16,
        start: 500,
        coldest: 90,
    },
];

/// Returns the phases from a timetable.
pub fn phases_for(is_settled: bool) -> &'static [Phase] {
    if is_settled { &SETTLED } else { &UNSETTLED }
}

impl Phase {
    /// Returns the number of draws of the phase, out of `all` draws, after `made` draws were made.
    pub fn draws(self, all: u64, made: u64) -> u64
        requires { made ≤ all }
        ensures { made + result ≤ all }
    {
        let end = u128::from(all) * u128::from(self.end) / 16;
        end.min(u128::from(all)).saturating_sub(u128::from(made)) as u64
    }
}
