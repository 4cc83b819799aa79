//! The rooms of a course except the first.

ghost use Rattle.std.specs.Prelude.{◌≡◌, ◌<◌, ◌≤◌, length};
ghost use Rattle.tt_leaf_rules.specs.Claims.{value_of};
ghost use Rattle.tt_leaf_rules.specs.Inner.Nested.{pinned_rooms};
ghost use Rattle.tt_leaf.specs.declared.leaf.Claim.TheVariants.{Stable};
ghost use Rattle.tt_instance.specs.declared.limit.TheConstants.{MAX_ROOMS};

use tt_bits::count;
use tt_path::Path;

#[inline(always)]
fn pinned_rooms<'i, P: Path<'i>>(path: &P, course: u32) -> u32
    requires { course < length (P.problem path.now).courses }
    ensures value { result ≡ pinned_rooms (P.problem path.now) (P.facts path.now) course }
    ensures within { result ≤ MAX_ROOMS }
{
    let mut total = 0;
    for block in 0..(path.instance().rooms() + 63) / 64 {
        total += count(path.pinned_rooms(course, block));
    }
    total
}

/// Returns the value of a claim on the rooms of a course, in cost points.
#[inline(always)]
pub fn stable_value<'i, P: Path<'i>>(path: &P, course: u32) -> u64
    requires { course < length (P.problem path.now).courses }
    ensures value { result ≡ value_of (P.problem path.now) (P.facts path.now) (Stable course) }
    ensures within { result ≤ MAX_ROOMS }
{
    u64::from(pinned_rooms(path, course).saturating_sub(1))
}
