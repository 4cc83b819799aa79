//! The isolated entries of a curriculum.

ghost use Rattle.std.specs.Prelude.{◌≡◌, ◌<◌, ◌≤◌, ◌*◌, ◌&&◌, ℕ, nat_lt, length};
ghost use Rattle.tt_bits.specs.Inner.Bits.{has_bit};
ghost use Rattle.tt_instance.specs.Cells.{slot};
ghost use Rattle.tt_path.specs.Live.{pinned};
ghost use Rattle.tt_path.specs.declared.facts.Who.TheVariants.{Curriculum};
ghost use Rattle.tt_leaf_rules.specs.Claims.{is_alone, value_of};
ghost use Rattle.tt_leaf_rules.specs.Inner.Nested.{isolated_periods};
ghost use Rattle.tt_leaf.specs.declared.leaf.Claim.TheVariants.{Compact};
ghost use Rattle.tt_instance.specs.declared.limit.TheConstants.{MAX_SLOTS};

use crate::groups::open_on;
use tt_bits::{count, next, previous, without};
use tt_instance::{ISOLATED_COST, MAX_DAYS, MAX_PERIODS};
use tt_path::{Path, Who};

/// Returns the pinned periods of a curriculum on a day that have no live neighbour period, as a set.
fn isolated_on<'i, P: Path<'i>>(path: &P, curriculum: u32, day: u32) -> u64
    requires curriculum { curriculum < length (P.problem path.now).curricula }
    requires day { day < (P.problem path.now).days }
    ensures { (s : ℕ) → s < 64 → has_bit result s ≡ (nat_lt s (P.problem path.now).periods
        && (pinned (P.problem path.now) (P.facts path.now) (Curriculum curriculum) (slot day s)
        && is_alone (P.problem path.now) (P.facts path.now) curriculum (slot day s))) }
{
    let instance = path.instance();
    // Brings the instance's limits into the proof.
    prove!(instance.days() <= MAX_DAYS);
    prove!(instance.periods() <= MAX_PERIODS);
    let pinned = path.pinned_periods(Who::Curriculum(curriculum), day);
    if pinned == 0 {
        return 0;
    }
    let members = instance.members(curriculum);
    let live = open_on(path, members, day);
    without(without(pinned, next(live)), previous(live))
}

fn isolated_periods<'i, P: Path<'i>>(path: &P, curriculum: u32) -> u32
    requires { curriculum < length (P.problem path.now).curricula }
    ensures value { result ≡ isolated_periods (P.problem path.now) (P.facts path.now) curriculum }
    ensures within { result ≤ MAX_SLOTS }
{
    // Brings the instance's limits into the proof.
    prove!(path.instance().periods() <= MAX_PERIODS);
    let mut total = 0;
    for day in 0..path.instance().days() {
        total += count(isolated_on(path, curriculum, day));
    }
    total
}

/// Returns the value of a claim on the isolated entries of a curriculum, in cost points.
pub fn compact_value<'i, P: Path<'i>>(path: &P, curriculum: u32) -> u64
    requires { curriculum < length (P.problem path.now).curricula }
    ensures value { result ≡ value_of (P.problem path.now) (P.facts path.now) (Compact curriculum) }
    ensures within { result ≤ ISOLATED_COST * MAX_SLOTS }
{
    u64::from(ISOLATED_COST) * u64::from(isolated_periods(path, curriculum))
}
