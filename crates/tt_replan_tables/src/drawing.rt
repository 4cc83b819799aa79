//! Numbers drawn from a generator.

use rand_core::Rng;
use rand_pcg::Pcg32;

/// Returns a random number that is at most `most`.
pub fn at_most(rng: &mut Pcg32, most: u32) -> u32 {
    rng.next_u32() % most.saturating_add(1).max(1)
}

/// Returns a random item, or `None` if there are no items.
pub fn one_of<T: Copy + Drop>(rng: &mut Pcg32, items: &[T]) -> Option<T> {
    let last = items.len().checked_sub(1)?;
    let index = at_most(rng, u32::try_from(last).unwrap_or(u32::MAX));
    items.get(index as usize).copied()
}
