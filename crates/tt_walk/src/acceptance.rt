//! The steps that a walk accepts.

use crate::random::{HALF, below, noise};
use rand_pcg::Pcg32;
use tt_moves::Change;

/// Decides whether a walk makes a step with this change: always if it breaks fewer hard rules, never if it breaks more, and otherwise at
/// random, less often the more it costs. The temperature is the added cost, in thousandths, that is accepted half of the time; of `level`
/// steps that change no cost, one is made.
pub fn is_accepted(rng: &mut Pcg32, temperature: u64, level: u32, change: Change) -> bool {
    if change.hard != 0 {
        return change.hard < 0;
    }
    if change.cost == 0 {
        return below(rng, level.max(1)) == 0;
    }
    let most = temperature.saturating_mul(u64::from(noise(rng)));
    change.cost < 0 || change.cost.unsigned_abs().saturating_mul(1000 * HALF) < most
}
