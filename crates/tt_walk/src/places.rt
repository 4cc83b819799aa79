//! Places to which an entry may move.

ghost use Rattle.std.specs.Prelude.{◌≡◌, ◌<◌, length};
ghost use Rattle.tt_instance.specs.Cells.{InRange};

use crate::random::below;
use rand_pcg::Pcg32;
use tt_instance::{Instance, Slot};
use tt_occupancy::Occupied;
use tt_table::Entry;

/// Returns the period of an entry.
pub fn slot_of(entry: Entry) -> Slot
    ensures day { result.day ≡ entry.day }
    ensures period { result.period ≡ entry.period }
{
    Slot {
        day: entry.day,
        period: entry.period,
    }
}

/// Returns a random period.
pub fn any_slot(instance: &Instance<'_>, rng: &mut Pcg32) -> Slot
    ensures day { result.day < instance.now.days }
    ensures period { result.period < instance.now.periods }
{
    Slot {
        day: below(rng, instance.days()),
        period: below(rng, instance.periods()),
    }
}

/// Checks that an entry breaks no hard rule in a period, except possibly the room's. `gone` of the conflicting entries in it do not count.
pub fn can_be_in(occupied: &Occupied<'_, '_>, entry: Entry, slot: Slot, gone: u32) -> bool
    requires in_range { InRange occupied.now.problem entry }
    requires day { slot.day < occupied.now.problem.days }
    requires period { slot.period < occupied.now.problem.periods }
{
    let instance = occupied.instance();
    if slot.day == entry.day && slot.period == entry.period {
        return true;
    }
    occupied.opposing(entry.course, slot.day, slot.period) <= gone
        && occupied.of_course(entry.course, slot.day, slot.period) == 0
        && !instance.unavailable(entry.course, slot.day, slot.period)
}

/// Checks that two entries each break no hard rule in the other's place. For the first this is already known, unless an entry in
/// that place conflicts with it.
pub fn can_change_places(
    occupied: &Occupied<'_, '_>,
    one: Entry,
    other: Entry,
    is_free: bool,
) -> bool
    requires one { InRange occupied.now.problem one }
    requires other { InRange occupied.now.problem other }
{
    let excludes = !is_free && occupied.instance().conflict(one.course, other.course);
    (is_free || excludes) && can_be_in(occupied, other, slot_of(one), u32::from(excludes))
}
