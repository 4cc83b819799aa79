//! Periods next to those of a set.

ghost use Rattle.std.specs.Prelude.{◌≡◌, ℕ, ◌<◌};
ghost use Rattle.tt_bits.specs.Inner.Bits.{has_bit};
ghost use Rattle.tt_moves.specs.Inner.Rounds.{has_next};

use tt_bits::{either, next, previous};

/// Returns the periods before and after those of a set.
pub fn neighbours(set: u64) -> u64
    ensures { (r : ℕ) → r < 64 → has_bit result r ≡ has_next (has_bit set) r }
{
    either(next(set), previous(set))
}
