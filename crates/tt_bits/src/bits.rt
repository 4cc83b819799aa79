//! Words as sets of numbers below 64.

ghost use Rattle.std.specs.Prelude.{◌≡◌, ◌<◌, ◌≤◌, ◌+◌, ◌-◌, ◌==◌, ◌&&◌, ◌||◌, ℕ, not, true, nat_lt, length, count_by, OnOk, OnErr};
ghost use Rattle.std.specs.List.{list_any};
ghost use Rattle.tt_bits.specs.Inner.Bits.{has_bit, bits, Clears};

use crate::trail::Trail;
use std::alloc::AllocError;

/// Returns whether a number is in the set.
pub fn has_bit(word: u64, number: u32) -> bool
    requires { number < 64 }
    ensures { result ≡ has_bit word number }
{
    word >> number & 1 == 1
}

/// Returns the set of one number.
pub fn one(number: u32) -> u64
    requires { number < 64 }
    ensures { (r : ℕ) → r < 64 → has_bit result r ≡ (r == number) }
{
    1 << number
}

/// Adds a number to the set if `is_in` is true, and returns the set.
pub fn with_if(word: u64, number: u32, is_in: bool) -> u64
    requires { number < 64 }
    ensures { (r : ℕ) → r < 64 → has_bit result r ≡ (has_bit word r || (is_in && (r == number))) }
{
    if is_in { word | 1 << number } else { word }
}

/// Returns the numbers that are in at least one of the two sets.
pub fn either(word: u64, other: u64) -> u64
    ensures { (r : ℕ) → r < 64 → has_bit result r ≡ (has_bit word r || has_bit other r) }
{
    word | other
}

/// Returns how many numbers the set has.
pub fn count(word: u64) -> u32
    ensures value { result ≡ count_by (has_bit word) bits }
    ensures within { result ≤ 64 }
{
    word.count_ones()
}

/// Returns the numbers that are in the first set but not in the second.
pub fn without(word: u64, mask: u64) -> u64
    ensures { (r : ℕ) → r < 64 → has_bit result r ≡ (has_bit word r && not (has_bit mask r)) }
{
    word & !mask
}

/// Returns the numbers below 64 that are not in the set.
pub fn others(word: u64) -> u64
    ensures { (r : ℕ) → r < 64 → has_bit result r ≡ not (has_bit word r) }
{
    !word
}

/// Returns the numbers that are in both sets.
pub fn both(word: u64, other: u64) -> u64
    ensures { (r : ℕ) → r < 64 → has_bit result r ≡ (has_bit word r && has_bit other r) }
{
    word & other
}

/// Returns the successors of the numbers of the set.
pub fn next(word: u64) -> u64
    ensures { (r : ℕ) → r < 64 → has_bit result r ≡ (nat_lt 0 r && has_bit word (r - 1)) }
{
    word << 1
}

/// Returns the predecessors of the numbers of the set.
pub fn previous(word: u64) -> u64
    ensures { (r : ℕ) → r < 64 → has_bit result r ≡ (nat_lt (r + 1) 64 && has_bit word (r + 1)) }
{
    word >> 1
}

/// Returns whether no number is in the set.
pub fn is_empty(word: u64) -> bool
    ensures { result ≡ not (list_any (has_bit word) bits) }
{
    word == 0
}

/// Returns the least number of the set.
pub fn lowest(word: u64) -> u32
    requires { 0 < word }
    ensures within { result < 64 }
    ensures there { has_bit word result ≡ true }
    ensures least { (r : ℕ) → r < result → has_bit word r ≡ not true }
{
    word.trailing_zeros()
}

/// Returns the set of the numbers below a bound.
pub fn below(bound: u32) -> u64
    ensures { (r : ℕ) → r < 64 → has_bit result r ≡ nat_lt r bound }
{
    if bound < 64 {
        (1 << bound) - 1
    } else {
        u64::MAX
    }
}

/// Removes the numbers of a mask from the set at a place of a table.
#[inline(always)]
pub fn clear(table: &mut Trail, place: usize, mask: u64) -> Result<(), AllocError>
    requires { place < length table.old.words }
    ensures ok { OnOk result (Clears table.old.words place mask table.new.words) }
    ensures err { OnErr result (table.new.words ≡ table.old.words) }
    ensures unchanged { table.new.earlier ≡ table.old.earlier }
{
    let old = table.word(place);
    let new = without(old, mask);
    if new != old {
        table.set(place, new)?;
    }
    Ok(())
}
