//! The seats that a course lacks, at a price for each of its lectures.

ghost use Rattle.std.specs.Prelude.{◌≡◌, ◌<◌, ◌≤◌, ◌*◌, length};
ghost use Rattle.tt_leaf_rules.specs.Claims.{value_of};
ghost use Rattle.tt_leaf_rules.specs.Inner.Nested.{above_least, discounts};
ghost use Rattle.tt_leaf.specs.declared.leaf.Claim.TheVariants.{Capacity};
ghost use Rattle.tt_leaf_rules.specs.declared.limit.TheConstants.{MAX_TARGET_VALUE};

use crate::slots::{slot_at, slot_count};
use tt_path::Path;

fn above_least(price: u64, least: Option<u64>) -> u64
    ensures value { result ≡ above_least price least }
    ensures at_most { result ≤ price }
{
    match least {
        Some(excess) => price.saturating_sub(excess),
        None => 0,
    }
}

fn all_discounts<'i, P: Path<'i>>(path: &P, course: u32, price: u32) -> u64
    requires { course < length (P.problem path.now).courses }
    ensures { result ≡ discounts (P.problem path.now) (P.facts path.now) course price }
{
    let instance = path.instance();
    let mut total: u64 = 0;
    for place in 0..slot_count(instance) {
        let slot = slot_at(instance, place);
        total += above_least(
            u64::from(price),
            path.least_excess(course, slot.day, slot.period),
        );
    }
    total
}

/// Returns the value of a claim of a price for each lecture of a course, in cost points.
pub fn capacity_value<'i, P: Path<'i>>(path: &P, course: u32, price: u32) -> u64
    requires { course < length (P.problem path.now).courses }
    ensures value { result ≡ value_of (P.problem path.now) (P.facts path.now) (Capacity course price) }
    ensures within { result ≤ MAX_TARGET_VALUE }
{
    let full = u64::from(path.instance().lectures(course)) * u64::from(price);
    full.saturating_sub(all_discounts(path, course, price))
}
