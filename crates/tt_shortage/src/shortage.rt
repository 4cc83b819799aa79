//! Courses that have more lectures than is open to them.

ghost use Rattle.std.specs.Prelude.{length, IfOk, IfSome};
ghost use Rattle.tt_leaf.specs.Ranges.{AreBelow};
ghost use Rattle.tt_shortage.specs.Numbers.{AreNumbers};

use crate::numbers::numbers_in;
use std::alloc::{AllocError, Global};
use tt_instance::{Instance, Slot};

/// What courses compete for.
#[derive(Clone, Copy, Debug, PartialEq, Eq)]
pub enum Contested {
    /// A period for each lecture, since any two of the courses conflict.
    Periods,
    /// A room in a period for each lecture.
    Places,
}

impl Contested {
    /// Returns how many lectures can be in the same period, with so many rooms.
    pub fn at_once(self, rooms: u32) -> u32 {
        match self {
            Contested::Periods => 1,
            Contested::Places => rooms,
        }
    }
}

/// Courses that have more lectures together than periods, or places, are open to them.
#[derive(Debug, Drop)]
pub struct Shortage {
    /// The courses, in ascending order.
    pub courses: Vec<u32>,
    pub contested: Contested,
    /// The lectures of the courses together.
    pub lectures: u64,
    /// The periods that are open to one of the courses, in order.
    pub slots: Vec<Slot>,
}

/// Counts the lectures of some courses together.
fn count_lectures(instance: &Instance<'_>, courses: &[u32]) -> u64
    requires { AreBelow (length instance.now.courses) courses.now }
{
    let mut lectures: u64 = 0;
    for course in courses {
        lectures = lectures.saturating_add(u64::from(instance.lectures(*course)));
    }
    lectures
}

/// Returns whether a period is open to at least one of some courses.
fn is_open(instance: &Instance<'_>, courses: &[u32], slot: Slot) -> bool {
    for course in courses {
        if !instance.unavailable(*course, slot.day, slot.period) {
            return true;
        }
    }
    false
}

/// Returns the periods that are open to at least one of some courses, in order.
fn open_slots(
    alloc: Global,
    instance: &Instance<'_>,
    courses: &[u32],
) -> Result<Vec<Slot>, AllocError> {
    let mut slots = Vec::new(alloc);
    for day in 0..instance.days() {
        for period in 0..instance.periods() {
            let slot = Slot { day, period };
            if is_open(instance, courses, slot) {
                slots.push(slot)?;
            }
        }
    }
    Ok(slots)
}

/// Returns whether a course conflicts with each other one of some courses.
fn is_in_conflict_with_others(instance: &Instance<'_>, course: u32, courses: &[u32]) -> bool {
    for other in courses {
        if course != *other && !instance.conflict(course, *other) {
            return false;
        }
    }
    true
}

/// Returns whether some courses compete: for periods only if any two of them conflict.
fn are_rivals(instance: &Instance<'_>, courses: &[u32], contested: Contested) -> bool {
    if contested == Contested::Places {
        return true;
    }
    for course in courses {
        if !is_in_conflict_with_others(instance, *course, courses) {
            return false;
        }
    }
    true
}

/// Returns the shortage of the courses that are marked, counted from the instance; `None` if they have enough.
pub fn shortage_of(
    alloc: Global,
    instance: &Instance<'_>,
    members: &[bool],
    contested: Contested,
) -> Result<Option<Shortage>, AllocError>
    ensures { IfOk result (λ found. IfSome found (λ s. AreNumbers (length instance.now.courses) s.courses.items)) }
{
    let courses = numbers_in(alloc, instance.courses(), members)?;
    if !are_rivals(instance, &courses, contested) {
        return Ok(None);
    }
    let lectures = count_lectures(instance, &courses);
    let slots = open_slots(alloc, instance, &courses)?;
    let places = (slots.len() as u64).saturating_mul(u64::from(contested.at_once(
        instance.rooms(),
    )));
    if lectures <= places {
        return Ok(None);
    }
    Ok(Some(Shortage {
        courses,
        contested,
        lectures,
        slots,
    }))
}
