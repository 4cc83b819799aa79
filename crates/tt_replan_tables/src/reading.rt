//! What is read of an instance and of its timetable. These functions have no contracts: a plan needs the numbers alone.

use tt_instance::Instance;
use tt_occupancy::Occupied;
use tt_table::Entry;

/// The sizes of an instance.
#[derive(Clone, Copy)]
pub struct Sizes {
    pub days: usize,
    pub periods: usize,
    /// The periods of all days.
    pub slots: usize,
    pub rooms: u32,
    pub courses: u32,
    pub curricula: u32,
}

/// Returns the sizes of an instance.
pub fn sizes_of(instance: &Instance<'_>) -> Sizes {
    let (days, periods) = (instance.days() as usize, instance.periods() as usize);
    Sizes {
        days,
        periods,
        slots: days.saturating_mul(periods),
        rooms: instance.rooms(),
        courses: instance.courses(),
        curricula: instance.curricula(),
    }
}

/// Returns the number of courses.
pub fn course_count(occupied: &Occupied<'_, '_>) -> u32 {
    occupied.instance().courses()
}

/// Returns the curricula of a course.
pub fn curricula_of<'o>(occupied: &'o Occupied<'_, '_>, course: u32) -> &'o [u32] {
    if course >= occupied.instance().courses() {
        return &[];
    }
    occupied.curricula_of(course)
}

/// Returns the courses of a curriculum.
pub fn members_of<'o>(occupied: &'o Occupied<'_, '_>, curriculum: u32) -> &'o [u32] {
    let instance = occupied.instance();
    if curriculum >= instance.curricula() {
        return &[];
    }
    instance.members(curriculum)
}

/// Returns the number of entries of a course in a room.
pub fn course_in_room(occupied: &Occupied<'_, '_>, course: u32, room: u32) -> u32 {
    let instance = occupied.instance();
    if course >= instance.courses() || room >= instance.rooms() {
        return 0;
    }
    occupied.course_in_room(course, room)
}

/// Returns whether two courses conflict.
pub fn is_conflict(occupied: &Occupied<'_, '_>, first: u32, second: u32) -> bool {
    occupied.instance().conflict(first, second)
}

/// Returns the number of entries.
pub fn entry_count(occupied: &Occupied<'_, '_>) -> u32 {
    occupied.table().len() as u32
}

/// Returns the entry with this number, if there is one.
pub fn entry_at(occupied: &Occupied<'_, '_>, number: u32) -> Option<Entry> {
    occupied.table().entries().get(number as usize).copied()
}
