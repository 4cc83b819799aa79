//! Comparisons of bounds.

ghost use Rattle.std.specs.Prelude.{◌≡◌, ◌⊎◌};

use crate::finding::Parts;
use tt_leaf::Bound;

/// Checks whether a bound says more than another one: that no timetable exists that breaks no hard rule says more than any number of points.
fn is_stronger(one: Bound, other: Bound) -> bool {
    match (one, other) {
        (_, Bound::Nothing) => false,
        (Bound::Nothing, Bound::AtLeast(_)) => true,
        (Bound::AtLeast(points), Bound::AtLeast(others)) => points > others,
    }
}

/// What a bound that is far above another one is at least: this share of it.
const FAR: (u64, u64) = (5, 4);

/// Checks whether a bound is so far above another one that the search for the other one is given up.
pub fn is_far_above(one: Bound, other: Bound) -> bool {
    let (more, of) = FAR;
    match (one, other) {
        (Bound::AtLeast(points), Bound::AtLeast(others)) => {
            others.saturating_mul(more) < points.saturating_mul(of)
        }
        _ => false,
    }
}

/// Returns the proofs with the stronger bound; the older ones if both are equal.
pub fn better_of(older: Parts, newer: Parts) -> Parts
    ensures { (result ≡ older) ⊎ (result ≡ newer) }
{
    if is_stronger(newer.bound, older.bound) {
        newer
    } else {
        older
    }
}
