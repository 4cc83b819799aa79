//! The periods that the yes-facts of a path pin.

ghost use Rattle.std.specs.Prelude.{◌≡◌, ◌≤◌};
ghost use Rattle.tt_path.specs.Facts.{IsWho};
ghost use Rattle.tt_path.specs.Live.{pinned_periods};
ghost use Rattle.tt_instance.specs.declared.limit.TheConstants.{MAX_SLOTS};

use tt_bits::count;
use tt_instance::MAX_PERIODS;
use tt_path::{Path, Who};

/// Counts the periods of the week that are pinned for a course or a curriculum.
pub fn pinned_periods<'i, P: Path<'i>>(path: &P, who: Who) -> u32
    requires { IsWho (P.problem path.now) who }
    ensures value { result ≡ pinned_periods (P.problem path.now) (P.facts path.now) who }
    ensures within { result ≤ MAX_SLOTS }
{
    // Brings the instance's limits into the proof.
    prove!(path.instance().periods() <= MAX_PERIODS);
    let mut total = 0;
    for day in 0..path.instance().days() {
        total += count(path.pinned_periods(who, day));
    }
    total
}
