//! The marks of a lecture.

ghost use Rattle.std.specs.Prelude.{◌≡◌};
ghost use Rattle.tt_instance.specs.Cells.{InRange};
ghost use Rattle.tt_page_weeks.specs.Marks.{in_conflict, room_taken, repeated, in_other_room};

use crate::groups::{count_in, count_of, has_conflict_with};
use tt_page_text::Plan;
use tt_table::Entry;

/// Checks whether an entry of its period has a course that conflicts with its own.
pub fn is_in_conflict(plan: &Plan<'_, '_>, entry: &Entry) -> bool
    requires { InRange plan.now.problem entry.now }
    ensures { result ≡ in_conflict plan.now.problem plan.now.table entry.now }
{
    let instance = plan.instance();
    let others = plan.in_period(entry.day, entry.period);
    has_conflict_with(instance, others, entry.course)
}

/// Checks whether its room has more than one entry in its period.
pub fn is_room_taken(plan: &Plan<'_, '_>, entry: &Entry) -> bool
    requires { InRange plan.now.problem entry.now }
    ensures { result ≡ room_taken plan.now.table entry.now }
{
    let others = plan.in_period(entry.day, entry.period);
    let count = count_in(others, entry.room);
    count > 1
}

/// Checks whether its course has more than one entry in its period.
pub fn is_repeated(plan: &Plan<'_, '_>, entry: &Entry) -> bool
    requires { InRange plan.now.problem entry.now }
    ensures { result ≡ repeated plan.now.table entry.now }
{
    let others = plan.in_period(entry.day, entry.period);
    let count = count_of(others, entry.course);
    count > 1
}

/// Checks whether its room is not that of its course's first entry.
pub fn is_in_other_room(plan: &Plan<'_, '_>, entry: &Entry) -> bool
    requires { InRange plan.now.problem entry.now }
    ensures { result ≡ in_other_room plan.now.table entry.now }
{
    match plan.of_course(entry.course).next() {
        Some(first) => first.room != entry.room,
        None => false,
    }
}
