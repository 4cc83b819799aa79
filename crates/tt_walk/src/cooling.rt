//! The progress of a walk, and its temperature.

use crate::logarithm::{STEPS, logarithm, power};
use crate::phases::Phase;

/// The maximum cost that a first draw accepts half of the time, in thousandths of a point.
const HOTTEST: u64 = 5_600;

/// The cost that a first draw accepts half of the time if the timetable costs nothing, in thousandths of a point.
const BASE_TEMPERATURE: u64 = 420;

/// The amount added to it for each point that an entry costs on average, in thousandths of a point.
const TEMPERATURE_PER_COST: u64 = 1_400;

/// The number of samples of all draws is about this number times the root of the number of draws.
const SAMPLES: u64 = 100_000;

/// The maximum number of samples that one draw takes.
const PATIENCE: u64 = 4_000;

/// The number of samples of a draw for each unit of the level: of `level` steps that change no cost, one is made.
const SAMPLES_A_LEVEL: u64 = 35;

/// The minimum level.
const FEWEST_LEVELS: u64 = 2;

/// The maximum level.
const MOST_LEVELS: u64 = 64;

/// The share that is the whole.
pub const WHOLE: u64 = 65_536;

/// The cooling of a phase: the remaining number of its draws and its samples.
#[derive(Clone, Copy)]
pub struct Cooling {
    draws: u64,
    samples: u64,
    drawn: u64,
    sampled: u64,
    /// The level: of so many steps that change no cost, one is made.
    level: u32,
    /// The cost that the last draws accept half of the time, in thousandths of a point.
    coldest: u64,
    /// The logarithm of the ratio of the temperatures at the phase's beginning and at its end.
    height: u64,
}

/// Returns a part of a number, as a share of the whole.
pub fn share(part: u64, all: u64) -> u64 {
    (part.saturating_mul(WHOLE) / all.max(1)).min(WHOLE)
}

/// Returns the average number of samples of a draw, for this number of draws.
pub fn samples(draws: u64) -> u64 {
    (SAMPLES / draws.isqrt().max(1)).clamp(16, 1024)
}

/// Returns the cost that a first draw usually accepts half of the time, for a timetable of this cost and this many entries.
fn first(cost: u64, entries: u64) -> u64 {
    let more = cost.saturating_mul(TEMPERATURE_PER_COST) / entries.max(1);
    BASE_TEMPERATURE.saturating_add(more).min(HOTTEST)
}

impl Cooling {
    /// Returns the cooling of a phase of `draws` draws, with `samples` samples each on average, from a timetable of this cost
    /// and this many entries.
    pub fn new(phase: Phase, draws: u64, samples: u64, cost: u64, entries: u64) -> Cooling {
        let coldest = phase.coldest.max(1);
        let warmest = first(cost, entries).saturating_mul(phase.start) / 1_000;
        let warmer = warmest.saturating_mul(STEPS) / coldest;
        Cooling {
            draws,
            samples: draws.saturating_mul(samples),
            drawn: 0,
            sampled: 0,
            level: (samples / SAMPLES_A_LEVEL).clamp(FEWEST_LEVELS, MOST_LEVELS) as u32,
            coldest,
            height: logarithm(warmer).saturating_sub(logarithm(STEPS)),
        }
    }

    /// Returns the cost that the next draw accepts half of the time, in thousandths of a point.
    pub fn temperature(self) -> u64 {
        let gone = share(self.drawn, self.draws).max(share(self.sampled, self.samples));
        let left = WHOLE.saturating_sub(gone);
        let warmer = power(self.height.saturating_mul(left) / WHOLE);
        self.coldest.saturating_mul(warmer) / STEPS
    }

    /// Returns the level: of so many steps that change no cost, one is made.
    pub fn level(self) -> u32 {
        self.level
    }

    /// Returns the maximum number of samples that the next draw takes.
    pub fn max_samples(self) -> u64 {
        self.samples.saturating_sub(self.sampled).min(PATIENCE)
    }

    /// Counts another sample.
    pub fn sample(&mut self) {
        self.sampled = self.sampled.saturating_add(1);
    }

    /// Counts another draw.
    pub fn draw(&mut self) {
        self.drawn = self.drawn.saturating_add(1);
    }
}
