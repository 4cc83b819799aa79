//! The contents of an instance.

use crate::counts::Counts;
use crate::shown::{Counted, Noun};
use std::alloc::AllocError;
use std::fmt;
use tt_instance::Instance;

/// Returns a part of a whole in percent, rounded down.
fn percent(part: u64, whole: u64) -> u64 {
    if whole == 0 {
        return 0;
    }
    part.saturating_mul(100) / whole
}

/// Returns the number of periods of the week.
pub fn periods_of_week(instance: &Instance<'_>) -> u64 {
    u64::from(instance.days()).saturating_mul(u64::from(instance.periods()))
}

/// Returns the number of places for lectures: rooms in periods of the week.
pub fn places(instance: &Instance<'_>) -> u64 {
    periods_of_week(instance).saturating_mul(u64::from(instance.rooms()))
}

/// Appends the line of the things to plan.
fn put_content(
    text: &mut String,
    instance: &Instance<'_>,
    lectures: u64,
) -> Result<(), AllocError> {
    let courses = Counted(u64::from(instance.courses()), Noun::Course);
    let lectures = Counted(lectures, Noun::Lecture);
    let teachers = Counted(u64::from(instance.teachers()), Noun::Teacher);
    let rooms = Counted(u64::from(instance.rooms()), Noun::Room);
    let curricula = Counted(u64::from(instance.curricula()), Noun::Curriculum);
    writeln!(
        text,
        "{courses} with {lectures}, {teachers}, {rooms}, {curricula}"
    )
}

/// How full the week is: the end of a line, empty if there is no place.
#[derive(Clone, Copy)]
struct Full {
    lectures: u64,
    places: u64,
}

impl fmt::Display for Full {
    fn fmt<W: fmt::Write>(&self, f: &mut fmt::Formatter<W>) -> fmt::Result {
        let Full { lectures, places } = *self;
        if places == 0 {
            return Ok(());
        }
        let share = percent(lectures, places);
        write!(f, ", {share} percent full")
    }
}

/// Appends the line that says how full the week is.
fn put_week(text: &mut String, instance: &Instance<'_>, lectures: u64) -> Result<(), AllocError> {
    let places = places(instance);
    let full = Full { lectures, places };
    let days = Counted(u64::from(instance.days()), Noun::Day);
    let periods = Counted(u64::from(instance.periods()), Noun::Period);
    let places = Counted(places, Noun::Place);
    writeln!(text, "{days} of {periods}, {places} in all rooms{full}")
}

/// Counts the pairs of courses that conflict.
fn conflicting_pairs(instance: &Instance<'_>) -> u64 {
    let mut pairs: u64 = 0;
    for second in 0..instance.courses() {
        for first in 0..second {
            if instance.conflict(first, second) {
                pairs = pairs.saturating_add(1);
            }
        }
    }
    pairs
}

/// Appends the line of conflicts.
fn put_conflicts(text: &mut String, instance: &Instance<'_>) -> Result<(), AllocError> {
    let courses = u64::from(instance.courses());
    let all = courses.saturating_mul(courses.saturating_sub(1)) / 2;
    let found = conflicting_pairs(instance);
    let share = percent(found, all);
    let pairs = Counted(all, Noun::Pair);
    writeln!(
        text,
        "{found} of {pairs} of courses can't meet at the same time, {share} percent"
    )
}

/// Returns the number of seats of the largest room; `None` if there is no room.
pub fn most_seats(instance: &Instance<'_>) -> Option<u32> {
    let mut most: Option<u32> = None;
    for room in 0..instance.rooms() {
        let seats = instance.capacity(room);
        most = Some(match most {
            Some(most) => most.max(seats),
            None => seats,
        });
    }
    most
}

/// Counts the lectures that have more students than any room has seats.
fn lectures_above(instance: &Instance<'_>, seats: u32) -> u64 {
    let mut lectures: u64 = 0;
    for course in 0..instance.courses() {
        if instance.students(course) > seats {
            lectures = lectures.saturating_add(u64::from(instance.lectures(course)));
        }
    }
    lectures
}

/// Returns the number of students of the largest course; 0 if there is no course.
fn most_students(instance: &Instance<'_>) -> u32 {
    let mut most: u32 = 0;
    for course in 0..instance.courses() {
        most = most.max(instance.students(course));
    }
    most
}

/// The number of lectures that have no room that is large enough: the end of a line, empty if there are none.
#[derive(Clone, Copy)]
struct Above(u64);

impl fmt::Display for Above {
    fn fmt<W: fmt::Write>(&self, f: &mut fmt::Formatter<W>) -> fmt::Result {
        if self.0 == 0 {
            return Ok(());
        }
        let above = Counted(self.0, Noun::LectureThatHas);
        write!(f, "; {above} no room that is large enough")
    }
}

/// Appends the line of seats and students.
fn put_seats(text: &mut String, instance: &Instance<'_>) -> Result<(), AllocError> {
    let Some(seats) = most_seats(instance) else {
        return writeln!(text, "there is no room");
    };
    let above = Above(lectures_above(instance, seats));
    let seats = Counted(u64::from(seats), Noun::Seat);
    let students = Counted(u64::from(most_students(instance)), Noun::Student);
    writeln!(
        text,
        "the largest room has {seats}, the largest course {students}{above}"
    )
}

/// Appends the contents of an instance: its parts, how full its week is, its conflicts and its seats.
pub fn put_summary(
    text: &mut String,
    instance: &Instance<'_>,
    counts: &Counts,
) -> Result<(), AllocError> {
    let lectures = counts.lectures();
    put_content(text, instance, lectures)?;
    put_week(text, instance, lectures)?;
    put_conflicts(text, instance)?;
    put_seats(text, instance)
}
