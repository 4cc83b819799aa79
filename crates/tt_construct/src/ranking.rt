//! The cost of a lecture at a place.

use crate::counts::Counts;
use crate::instance_data::{Course, InstanceData};
use crate::place::Place;
use crate::placed::PlacedLectures;
use tt_instance::{ISOLATED_COST, MISSING_DAY_COST};

/// A lecture to place.
#[derive(Clone, Copy)]
pub struct Lecture<'s> {
    /// The number of its course.
    pub number: u32,
    pub course: &'s Course,
    /// Whether its course has reached its minimum number of working days.
    is_spread: bool,
    /// Whether the demand of other courses counts before the cost.
    looks_ahead: bool,
}

impl<'s> Lecture<'s> {
    /// Returns a lecture of a course that is taught on this many days.
    pub fn new(number: u32, course: &'s Course, days: u32, looks_ahead: bool) -> Lecture<'s> {
        Lecture {
            number,
            course,
            is_spread: days >= course.min_days,
            looks_ahead,
        }
    }
}

/// The rank of a place: the first part that differs decides, and less is better.
#[derive(Clone, Copy, PartialEq, Eq, PartialOrd, Ord)]
pub struct Rank {
    /// The number of hard rules that are broken.
    pub broken: u32,
    /// The demand of other courses for the period.
    wanted: u32,
    /// The cost points, plus a constant.
    cost: u32,
    /// The number of seats that remain empty.
    spare: u32,
    /// A random number.
    lot: u32,
}

impl Rank {
    pub const HIGHEST: Rank = Rank {
        broken: u32::MAX,
        wanted: u32::MAX,
        cost: u32::MAX,
        spare: u32::MAX,
        lot: u32::MAX,
    };
}

/// Returns the number of a curriculum's lectures in the period before, or 0 if the day has no such period.
fn before(curricula: &Counts, curriculum: u32, slot: u32, periods: u32) -> u16 {
    match slot.checked_rem(periods) {
        None | Some(0) => 0,
        Some(_) => curricula.get(curriculum, slot.saturating_sub(1)),
    }
}

/// Returns the number of a curriculum's lectures in the period after, or 0 if the day has no such period.
fn after(curricula: &Counts, curriculum: u32, slot: u32, periods: u32) -> u16 {
    let next = slot.saturating_add(1);
    match next.checked_rem(periods) {
        None | Some(0) => 0,
        Some(_) => curricula.get(curriculum, next),
    }
}

/// Returns the cost that another lecture of a curriculum in the period adds by isolated lectures, plus that of two of them.
fn isolation(curricula: &Counts, curriculum: u32, slot: u32, periods: u32) -> u32 {
    let has_before = before(curricula, curriculum, slot, periods) > 0;
    let has_after = after(curricula, curriculum, slot, periods) > 0;
    if !has_before && !has_after {
        return 3 * ISOLATED_COST;
    }
    let joins_before = has_before
        && before(curricula, curriculum, slot.saturating_sub(1), periods) == 0;
    let joins_after = has_after
        && after(curricula, curriculum, slot.saturating_add(1), periods) == 0;
    match (joins_before, joins_after) {
        (true, true) => 0,
        (false, false) => 2 * ISOLATED_COST,
        _ => ISOLATED_COST,
    }
}

/// Returns the cost of a lecture in a period in any room: isolated lectures of its curricula, and its course's working days.
fn period_cost(
    data: &InstanceData,
    placed: &PlacedLectures,
    lecture: Lecture<'_>,
    slot: u32,
) -> u32 {
    let day = slot.checked_div(data.periods).unwrap_or(0);
    let is_new = placed.days.get(lecture.number, day) == 0;
    let mut cost: u32 = if lecture.is_spread || is_new {
        0
    } else {
        MISSING_DAY_COST
    };
    for curriculum in lecture.course.curricula.iter().take(data.most_curricula) {
        let added = isolation(&placed.curricula, *curriculum, slot, data.periods);
        cost = cost.saturating_add(added);
    }
    cost
}

/// Returns the rank of a lecture in a period, in any room.
pub fn period_rank(
    data: &InstanceData,
    placed: &PlacedLectures,
    lecture: Lecture<'_>,
    slot: u32,
) -> Rank {
    Rank {
        broken: placed.broken(lecture.number, slot),
        wanted: if lecture.looks_ahead {
            placed.wanted(lecture.course, slot)
        } else {
            0
        },
        cost: period_cost(data, placed, lecture, slot),
        spare: 0,
        lot: 0,
    }
}

/// Returns the rank of a lecture at a place in a period of this rank, with this random number.
pub fn place_rank(
    data: &InstanceData,
    placed: &PlacedLectures,
    lecture: Lecture<'_>,
    place: Place,
    period: Rank,
    lot: u32,
) -> Rank {
    let seats = data.seats.get(place.room as usize).copied().unwrap_or(0);
    let taken = u32::from(placed.rooms.get(place.room, place.slot));
    let is_new = placed.course_rooms.get(lecture.number, place.room) == 0;
    let excess = lecture.course.students.saturating_sub(seats);
    let room_cost = excess.saturating_add(u32::from(is_new));
    Rank {
        broken: period.broken.saturating_add(taken),
        cost: period.cost.saturating_add(room_cost),
        spare: seats.saturating_sub(lecture.course.students),
        lot,
        ..period
    }
}
