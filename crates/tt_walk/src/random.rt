//! Numbers drawn from a generator.

ghost use Rattle.std.specs.Prelude.{◌<◌};

use rand::RngExt;
use rand_core::Rng;
use rand_pcg::Pcg32;

/// Returns a random number below a bound.
pub fn below(rng: &mut Pcg32, bound: u32) -> u32
    requires { 0 < bound }
    ensures { result < bound }
{
    rng.random_range(0..bound)
}

/// Each increase of the noise by this amount is half as likely.
pub const HALF: u64 = 16;

/// Returns a random number; each increase by 16 is half as likely.
pub fn noise(rng: &mut Pcg32) -> u32 {
    let word = rng.next_u32();
    word.leading_zeros().saturating_mul(16) + word % 16
}
