//! The periods of the week, by their places from 0.

ghost use Rattle.std.specs.Prelude.{◌≡◌, ◌<◌, ◌≤◌, length, slice_index_or};
ghost use Rattle.tt_instance.specs.Cells.{all_slots};
ghost use Rattle.tt_instance.specs.Limits.{IsInstance};
ghost use Rattle.tt_instance.specs.declared.limit.TheConstants.{MAX_SLOTS};

use tt_instance::{Instance, Slot};

/// Returns how many periods the week has.
pub fn slot_count(instance: &Instance<'_>) -> u32
    ensures value { result ≡ length (all_slots instance.now) }
    ensures within { result ≤ MAX_SLOTS }
    ensures instance { IsInstance instance.now }
{
    instance.days() * instance.periods()
}

/// Returns the period at a place.
pub fn slot_at(instance: &Instance<'_>, place: u32) -> Slot
    requires { place < length (all_slots instance.now) }
    ensures value { result ≡ slice_index_or (all_slots instance.now) place result }
    ensures day { result.day < instance.now.days }
    ensures period { result.period < instance.now.periods }
{
    let periods = instance.periods();
    Slot {
        day: place / periods,
        period: place % periods,
    }
}
