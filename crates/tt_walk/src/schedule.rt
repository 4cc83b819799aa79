//! The number of plans of a walk, and the noise of their prices.

ghost use Rattle.std.specs.Prelude.{◌≡◌};

use crate::cooling::{WHOLE, share};

/// The maximum noise of a first plan's prices, in thousandths of a point.
const LOUDEST: u64 = 3_500;

/// The maximum noise of a last plan's prices, in thousandths of a point.
const QUIETEST: u64 = 400;

/// The number of plans for each unit of the root of the number of draws.
const PLANS: u64 = 220;

/// The number of plans of a walk, the maximum number of their steps in all, and the noise at the beginning.
#[derive(Clone, Copy)]
pub struct Schedule {
    pub plans: u64,
    pub draws: u64,
    loudest: u64,
}

impl Schedule {
    /// Returns the schedule of a walk of this many draws. From a start that seems to be near the best, the noise begins half as high.
    pub fn new(draws: u64, is_settled: bool) -> Schedule
        ensures { result.draws ≡ draws }
    {
        Schedule {
            plans: draws.isqrt().saturating_mul(PLANS),
            draws,
            loudest: if is_settled { LOUDEST / 2 } else { LOUDEST },
        }
    }

    /// Returns the noise of the next plan's prices, in thousandths of a point, after this many plans and draws.
    pub fn noise(self, plan: u64, made: u64) -> u32 {
        let gone = share(plan, self.plans).max(share(made, self.draws));
        let left = WHOLE.saturating_sub(gone);
        let louder = self.loudest.saturating_sub(QUIETEST);
        let noise = louder.saturating_mul(left).saturating_mul(left) / (WHOLE * WHOLE);
        u32::try_from(noise.saturating_add(QUIETEST)).unwrap_or(u32::MAX)
    }
}
