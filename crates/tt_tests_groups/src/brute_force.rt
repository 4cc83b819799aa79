//! The lowest cost of a random group, found by trying each relaxed timetable.

use crate::drawn::{Course, Drawn, SLOTS, has_bit};

/// The number of sets of slots.
const SETS: u32 = 1 << SLOTS;

/// The points for each working day that a course lacks.
const DAY_POINTS: u32 = 5;

/// The points for each isolated lecture of a curriculum.
const ALONE_POINTS: u32 = 2;

/// Returns the group's courses and the members of its curricula.
fn concerned(drawn: &Drawn) -> u32 {
    let mut courses = drawn.group_courses;
    for (number, members) in drawn.curricula.iter().enumerate() {
        if has_bit(drawn.group_curricula, number as u32) {
            courses |= *members;
        }
    }
    courses
}

/// Checks that a course has as many slots as lectures, all available; a course that the group doesn't concern must have none.
fn suits(course: &Course, is_concerned: bool, slots: u32) -> bool {
    if !is_concerned {
        return slots == 0;
    }
    slots.count_ones() == course.lectures && slots & !course.available == 0
}

/// Checks whether two courses conflict: a common teacher, or a curriculum that has both.
fn conflict(drawn: &Drawn, one: u32, other: u32) -> bool {
    let both = (1 << (one % 3)) | (1 << (other % 3));
    let first = &drawn.courses[(one % 3) as usize];
    let second = &drawn.courses[(other % 3) as usize];
    first.teacher == second.teacher
        || drawn
            .curricula
            .iter()
            .any(|members| *members & both == both)
}

/// Returns the first slot of each day.
fn first_slots(drawn: &Drawn) -> u32 {
    (0..SLOTS)
        .filter(|slot| *slot % drawn.periods.max(1) == 0)
        .fold(0, |slots, slot| slots | (1 << (slot % 32)))
}

/// Returns the number of days that have a slot of a set.
fn days_used(drawn: &Drawn, slots: u32) -> u32 {
    let day_slots = (1 << (drawn.periods % 32)) - 1;
    let mut used: u32 = 0;
    for day in 0..drawn.days {
        if slots & (day_slots << (day.wrapping_mul(drawn.periods) % 32)) != 0 {
            used = used.saturating_add(1);
        }
    }
    used
}

/// Returns the number of slots of a set without a neighbour in it on their day.
fn alone(slots: u32, first: u32) -> u32 {
    let after = (slots << 1) & !first;
    let before = (slots & !first) >> 1;
    (slots & !(after | before)).count_ones()
}

/// Returns the cost of the group if its courses are taught in these slots.
fn cost(drawn: &Drawn, plan: [u32; 3], first: u32) -> u32 {
    let mut cost: u32 = 0;
    for (number, course) in drawn.courses.iter().enumerate() {
        if has_bit(drawn.group_courses, number as u32) {
            let used = days_used(drawn, plan[number % 3]);
            let lacking = course.wanted_days.saturating_sub(used);
            cost = cost.saturating_add(lacking.saturating_mul(DAY_POINTS));
        }
    }
    for (number, members) in drawn.curricula.iter().enumerate() {
        if has_bit(drawn.group_curricula, number as u32) {
            let mut taught = 0;
            for (course, slots) in plan.iter().enumerate() {
                if has_bit(*members, course as u32) {
                    taught |= *slots;
                }
            }
            cost = cost.saturating_add(alone(taught, first).saturating_mul(ALONE_POINTS));
        }
    }
    cost
}

/// Returns the lowest cost of the group over all relaxed timetables, or `None` if there is none.
pub fn least_cost(drawn: &Drawn) -> Option<u32> {
    let courses = concerned(drawn);
    let first = first_slots(drawn);
    let apart = |one: u32, other: u32, a: u32, b: u32| a & b == 0 || !conflict(drawn, one, other);
    let mut least: Option<u32> = None;
    for a in 0..SETS {
        if !suits(&drawn.courses[0], has_bit(courses, 0), a) {
            continue;
        }
        for b in 0..SETS {
            if !suits(&drawn.courses[1], has_bit(courses, 1), b) || !apart(0, 1, a, b) {
                continue;
            }
            for c in 0..SETS {
                if suits(&drawn.courses[2], has_bit(courses, 2), c)
                    && apart(0, 2, a, c)
                    && apart(1, 2, b, c)
                {
                    let cost = cost(drawn, [a, b, c], first);
                    least = Some(least.map_or(cost, |least| least.min(cost)));
                }
            }
        }
    }
    least
}
