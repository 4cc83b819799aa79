//! The periods of the week, numbered from 0, day by day.

ghost use Rattle.std.specs.Prelude.{◌≡◌, ◌+◌, ◌*◌, ◌<◌, ◌≤◌};
ghost use Rattle.tt_instance.specs.Cells.{InRange};
ghost use Rattle.tt_instance.specs.declared.limit.TheConstants.{MAX_SLOTS};

use tt_instance::Instance;
use tt_table::Entry;

/// Returns how many periods the week has.
pub fn in_week(instance: &Instance<'_>) -> u32
    ensures value { result ≡ instance.now.days * instance.now.periods }
    ensures within { result ≤ MAX_SLOTS }
{
    instance.days() * instance.periods()
}

/// Returns the number of an entry's period.
#[tactic(auto, using(tt_table::proofs::Numbering::number_below_week))]
pub fn number(instance: &Instance<'_>, entry: &Entry) -> usize
    requires { InRange instance.now entry.now }
    ensures value { result ≡ entry.now.day * instance.now.periods + entry.now.period }
    ensures within { result < MAX_SLOTS }
{
    (entry.day * instance.periods() + entry.period) as usize
}
