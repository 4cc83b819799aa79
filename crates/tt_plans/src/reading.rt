//! What is read of an instance and of its timetable. These functions have no contracts: a plan needs the numbers alone.

use tt_instance::Instance;
use tt_occupancy::Occupied;

/// The maximum number of missing seats; more than this count as this many.
const MOST_MISSING: u32 = 1_000;

/// Returns the curricula of a course.
pub fn curricula_of<'o>(occupied: &'o Occupied<'_, '_>, course: u32) -> &'o [u32] {
    if course >= occupied.instance().courses() {
        return &[];
    }
    occupied.curricula_of(course)
}

/// Returns the courses of a curriculum.
pub fn members_of<'o>(occupied: &'o Occupied<'_, '_>, curriculum: u32) -> &'o [u32] {
    let instance = occupied.instance();
    if curriculum >= instance.curricula() {
        return &[];
    }
    instance.members(curriculum)
}

/// Returns the number of lectures of a course, and the minimum number of its days.
pub fn wants_of(instance: &Instance<'_>, course: u32) -> (u32, u32) {
    if course >= instance.courses() {
        return (0, 0);
    }
    (instance.lectures(course), instance.min_days(course))
}

/// Returns the number of seats that a course misses in a room.
pub fn missing_seats(instance: &Instance<'_>, course: u32, room: u32) -> i32 {
    if course >= instance.courses() || room >= instance.rooms() {
        return 0;
    }
    let missing = instance
        .students(course)
        .saturating_sub(instance.capacity(room));
    i32::try_from(missing.min(MOST_MISSING)).unwrap_or(0)
}
