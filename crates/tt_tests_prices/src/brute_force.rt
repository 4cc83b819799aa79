//! The least that a random group pays, found by trying each relaxed timetable.

use crate::groups_drawn::{COURSES, DrawnGroup, SLOTS, has_bit};

/// The number of sets of slots.
const SETS: u32 = 1 << SLOTS;

/// The slots of the first day.
const FIRST_DAY: u32 = 0b000111;

/// The first slot of each day.
const FIRST_SLOTS: u32 = 0b001001;

/// The members of both curricula.
const MEMBERS: [u32; 2] = [0b011, 0b110];

/// The points for each working day that a course lacks.
const DAY_POINTS: u32 = 5;

/// The points for each isolated lecture of a curriculum.
const ALONE_POINTS: u32 = 2;

/// The lectures and the wanted days of a course, and the slots in which it is available.
#[derive(Clone, Copy)]
struct Course {
    lectures: u32,
    wanted_days: u32,
    available: u32,
}

/// The courses of the instance.
const ALL: [Course; COURSES] = [
    Course {
        lectures: 3,
        wanted_days: 2,
        available: 0b111101,
    },
    Course {
        lectures: 4,
        wanted_days: 2,
        available: 0b111111,
    },
    Course {
        lectures: 2,
        wanted_days: 3,
        available: 0b110111,
    },
];

/// Returns the courses that a group concerns.
fn concerned(group: &DrawnGroup) -> u32 {
    let mut courses = group.courses | group.further;
    for (number, members) in MEMBERS.iter().enumerate() {
        if has_bit(group.curricula, number as u32) {
            courses |= *members;
        }
    }
    courses
}

/// Checks whether a course can have these slots: all its lectures, if they are counted, and none if the group doesn't concern the course.
fn can_have(group: &DrawnGroup, number: u32, slots: u32) -> bool {
    let course = &ALL[(number % 3) as usize];
    if !has_bit(concerned(group), number) {
        return slots == 0;
    }
    slots & !course.available == 0
        && (has_bit(group.uncounted, number) || slots.count_ones() == course.lectures)
}

/// Returns the number of days that have a slot of a set.
fn days_used(slots: u32) -> u32 {
    u32::from(slots & FIRST_DAY != 0) + u32::from(slots & !FIRST_DAY != 0)
}

/// Returns the number of slots of a set without a neighbour in it on their day.
fn alone(slots: u32) -> u32 {
    let after = (slots << 1) & !FIRST_SLOTS;
    let before = (slots & !FIRST_SLOTS) >> 1;
    (slots & !(after | before)).count_ones()
}

/// Returns the points of the courses whose working days count.
fn days_points(group: &DrawnGroup, plan: [u32; COURSES]) -> u32 {
    let mut points: u32 = 0;
    for (number, course) in ALL.iter().enumerate() {
        if has_bit(group.courses, number as u32) {
            let slots = plan[number % COURSES];
            let later = slots.count_ones().saturating_sub(days_used(slots));
            let lacking = course
                .wanted_days
                .saturating_add(later)
                .saturating_sub(course.lectures);
            points = points.saturating_add(lacking.saturating_mul(DAY_POINTS));
        }
    }
    points
}

/// Returns the points of the curricula.
fn alone_points(group: &DrawnGroup, plan: [u32; COURSES]) -> u32 {
    let mut points: u32 = 0;
    for (number, members) in MEMBERS.iter().enumerate() {
        if has_bit(group.curricula, number as u32) {
            let mut taught = 0;
            for (course, slots) in plan.iter().enumerate() {
                if has_bit(*members, course as u32) {
                    taught |= *slots;
                }
            }
            points = points.saturating_add(alone(taught).saturating_mul(ALONE_POINTS));
        }
    }
    points
}

/// Returns the prices of all lectures.
fn prices(group: &DrawnGroup, plan: [u32; COURSES]) -> i64 {
    let mut sum: i64 = 0;
    for (slots, row) in plan.iter().zip(group.rows.iter()) {
        for (slot, price) in row.prices.iter().enumerate() {
            if has_bit(*slots, slot as u32) {
                sum = sum.saturating_add(i64::from(*price));
            }
        }
    }
    sum
}

/// Returns what the group pays if its courses are taught in these slots.
fn paid(group: &DrawnGroup, plan: [u32; COURSES]) -> i64 {
    let points = days_points(group, plan).saturating_add(alone_points(group, plan));
    i64::from(group.scale.saturating_mul(points)).saturating_add(prices(group, plan))
}

/// Returns the least that the group pays in a relaxed timetable, or `None` if there is none.
pub fn least_of(group: &DrawnGroup) -> Option<i64> {
    let mut least: Option<i64> = None;
    for first in (0..SETS).filter(|slots| can_have(group, 0, *slots)) {
        for second in (0..SETS).filter(|slots| can_have(group, 1, *slots)) {
            // The second course has a curriculum in common with each of the others.
            if first & second != 0 {
                continue;
            }
            for third in (0..SETS).filter(|slots| can_have(group, 2, *slots)) {
                if second & third == 0 {
                    let paid = paid(group, [first, second, third]);
                    least = Some(least.map_or(paid, |least| least.min(paid)));
                }
            }
        }
    }
    least
}
