//! Sets of numbers in the words of a table.

ghost use Rattle.std.specs.Prelude.{◌≡◌, ◌<◌, ◌==◌, ◌||◌, ℕ, length, OnOk, OnErr};
ghost use Rattle.tt_bits.specs.Inner.Bits.{has_bit};
ghost use Rattle.tt_path_pins.specs.Inner.Sets.{Puts};

use std::alloc::AllocError;
use tt_bits::Trail;

/// Returns the set with the number added.
fn with(word: u64, number: u32) -> u64
    requires { number < 64 }
    ensures { (r : ℕ) → r < 64 → has_bit result r ≡ (has_bit word r || (r == number)) }
{
    word | 1 << number
}

/// Adds a number to the set at a place of a table. A set that has it already is not written.
#[inline(always)]
pub fn put(table: &mut Trail, place: usize, number: u32) -> Result<(), AllocError>
    requires place { place < length table.old.words }
    requires number { number < 64 }
    ensures ok { OnOk result (Puts table.old.words place number table.new.words) }
    ensures err { OnErr result (table.new.words ≡ table.old.words) }
    ensures unchanged { table.new.earlier ≡ table.old.earlier }
{
    let old = table.word(place);
    let new = with(old, number);
    if new != old {
        table.set(place, new)?;
    }
    Ok(())
}
