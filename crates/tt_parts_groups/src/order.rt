//! Lists in random order.

use rand::RngExt;
use rand_pcg::Pcg32;

/// Puts numbers in a random order.
pub fn shuffle(numbers: &mut [u32], rng: &mut Pcg32) {
    for last in 1..numbers.len() {
        let Ok(bound) = u32::try_from(last) else {
            break;
        };
        let other = rng.random_range(0..=bound) as usize;
        numbers.swap(last, other.min(last));
    }
}
