//! The timetable of a plan.

ghost use Rattle.std.specs.Prelude.{◌≡◌, ◌<◌, ◌≤◌, ◌+◌, length, IfOk, OnOk};
ghost use Rattle.tt_instance.specs.Cells.{InRange};
ghost use Rattle.tt_instance.specs.Courses.{lectures};
ghost use Rattle.tt_construct.specs.Constructed.{IsConstructed};
ghost use Rattle.tt_construct.specs.Inner.Filled.{HasMore};
ghost use Rattle.tt_instance.specs.declared.limit.TheConstants.{MAX_LECTURES};

use crate::place::Place;
use std::alloc::{AllocError, Global};
use tt_instance::Instance;
use tt_table::{Entry, Timetable};

/// Returns the entry of a course at a place, or in the first room and period if the instance has no such place.
fn entry_at(instance: &Instance<'_>, course: u32, place: Option<&Place>) -> Entry
    requires course { course < length instance.now.courses }
    requires rooms { 0 < length instance.now.rooms }
    ensures in_range { InRange instance.now result }
    ensures course { result.course ≡ course }
{
    let (days, periods) = (instance.days(), instance.periods());
    let first = Entry {
        course,
        room: 0,
        day: 0,
        period: 0,
    };
    match place {
        Some(place) if place.room < instance.rooms() && place.slot / periods < days => {
            Entry {
                course,
                room: place.room,
                day: place.slot / periods,
                period: place.slot % periods,
            }
        }
        _ => first,
    }
}

/// Adds the lectures of a course.
fn add_course(
    instance: &Instance<'_>,
    table: &mut Timetable,
    course: u32,
    places: &[Place],
) -> Result<(), AllocError>
    requires course { course < length instance.now.courses }
    requires rooms { 0 < length instance.now.rooms }
    requires at_most { length table.old + lectures instance.now course ≤ MAX_LECTURES }
    ensures { OnOk result (HasMore instance.now course (lectures instance.now course) table.old table.new) }
{
    for _ in 0..instance.lectures(course) {
        let place = places.get(table.len());
        table.push_below_limit(entry_at(instance, course, place))?;
    }
    Ok(())
}

/// Returns the timetable of a plan: the places of the lectures, course by course.
pub fn fill(
    alloc: Global,
    instance: &Instance<'_>,
    places: &[Place],
) -> Result<Timetable, AllocError>
    requires { 0 < length instance.now.rooms }
    ensures { IfOk result (IsConstructed instance.now) }
{
    // Brings the instance's limits into the proof.
    prove!(instance.days() > 0);
    let mut table = Timetable::new(alloc);
    for course in 0..instance.courses() {
        add_course(instance, &mut table, course, places)?;
    }
    Ok(table)
}
