//! How many distinct periods, days or rooms the entries of a group have.

ghost use Rattle.std.specs.Prelude.{◌≡◌, ◌≤◌, count_by, All};
ghost use Rattle.std.specs.List.{list_any};
ghost use Rattle.tt_instance.specs.Cells.{InRange, all_slots, all_days, all_rooms, is_at, is_on, is_in};
ghost use Rattle.tt_instance.specs.declared.limit.TheConstants.{MAX_DAYS, MAX_ROOMS, MAX_SLOTS};

use crate::marks::Marks;
use crate::slots;
use tt_instance::Instance;
use tt_table::Group;

/// Counts the periods of the week that have some entry.
#[tactic(auto, using(crate::proofs::Marking::marks_first))]
pub fn periods(instance: &Instance<'_>, group: Group<'_>) -> u64
    requires { All (InRange instance.now) group }
    ensures count { result ≡ count_by (λ s. list_any (is_at s) group.entry) (all_slots instance.now) }
    ensures at_most { result ≤ MAX_SLOTS }
{
    let mut marks = Marks::none();
    for entry in group {
        marks.add(slots::number(instance, entry));
    }
    marks.count(slots::in_week(instance))
}

/// Counts the days that have some entry.
#[tactic(auto, using(crate::proofs::Marking::marks_first, crate::proofs::Marking::marks_counted))]
pub fn days(instance: &Instance<'_>, group: Group<'_>) -> u64
    requires { All (InRange instance.now) group }
    ensures count { result ≡ count_by (λ d. list_any (is_on d) group.entry) (all_days instance.now) }
    ensures at_most { result ≤ MAX_DAYS }
{
    let days = instance.days();
    let mut marks = Marks::none();
    for entry in group {
        marks.add(entry.day as usize);
    }
    marks.count(days)
}

/// Counts the rooms that have some entry.
#[tactic(auto, using(crate::proofs::Marking::marks_first, crate::proofs::Marking::marks_counted))]
pub fn rooms(instance: &Instance<'_>, group: Group<'_>) -> u64
    requires { All (InRange instance.now) group }
    ensures count { result ≡ count_by (λ r. list_any (is_in r) group.entry) (all_rooms instance.now) }
    ensures at_most { result ≤ MAX_ROOMS }
{
    let rooms = instance.rooms();
    let mut marks = Marks::none();
    for entry in group {
        marks.add(entry.room as usize);
    }
    marks.count(rooms)
}
