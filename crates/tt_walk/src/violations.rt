//! Entries for which another place may be better.

ghost use Rattle.std.specs.Prelude.{◌<◌, length};
ghost use Rattle.tt_instance.specs.Cells.{InRange};

use tt_occupancy::Occupied;
use tt_table::Entry;

/// Checks whether an entry breaks a hard rule.
fn is_broken(occupied: &Occupied<'_, '_>, entry: Entry) -> bool
    requires { InRange occupied.now.problem entry }
{
    let (course, day, period) = (entry.course, entry.day, entry.period);
    occupied.in_room(entry.room, day, period) > 1
        || occupied.opposing(course, day, period) > 0
        || occupied.of_course(course, day, period) > 1
        || occupied.instance().unavailable(course, day, period)
}

/// Checks whether an entry of a curriculum is in the period before or after.
fn has_neighbour(occupied: &Occupied<'_, '_>, curriculum: u32, entry: Entry) -> bool
    requires curriculum { curriculum < length occupied.now.problem.curricula }
    requires in_range { InRange occupied.now.problem entry }
{
    let (day, period) = (entry.day, entry.period);
    let periods = occupied.instance().periods();
    (period > 0 && occupied.of_curriculum(curriculum, day, period - 1) > 0)
        || (period + 1 < periods && occupied.of_curriculum(curriculum, day, period + 1) > 0)
}

/// Checks whether an entry is isolated in one of its curricula.
fn is_isolated(occupied: &Occupied<'_, '_>, entry: Entry) -> bool
    requires { InRange occupied.now.problem entry }
{
    for curriculum in occupied.curricula_of(entry.course) {
        if !has_neighbour(occupied, *curriculum, entry) {
            return true;
        }
    }
    false
}

/// Checks whether an entry has too small a room, a room that no other entry of its course has, or a day with two entries of its course
/// while the course needs another day.
fn is_misplaced(occupied: &Occupied<'_, '_>, entry: Entry) -> bool
    requires { InRange occupied.now.problem entry }
{
    let instance = occupied.instance();
    let course = entry.course;
    instance.students(course) > instance.capacity(entry.room)
        || (occupied.rooms_used(course) > 1 && occupied.course_in_room(course, entry.room) == 1)
        || (occupied.days_used(course) < instance.min_days(course)
            && occupied.on_day(course, entry.day) > 1)
}

/// Checks whether an entry breaks a hard rule or has a cost at its place.
pub fn has_cost_or_fault(occupied: &Occupied<'_, '_>, entry: Entry) -> bool
    requires { InRange occupied.now.problem entry }
{
    is_broken(occupied, entry) || is_misplaced(occupied, entry) || is_isolated(occupied, entry)
}
