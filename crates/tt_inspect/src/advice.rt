//! Properties of an instance that are impossible, that cost something in every timetable, or that should be checked.

ghost use Rattle.std.specs.Prelude.{◌<◌, length};

use crate::alike::put_alike;
use crate::impossible::put_impossible;
use crate::lists::put_concerns;
use std::alloc::AllocError;
use std::fmt;
use tt_inspect_words::{Counted, Counts, Name, Noun, most_seats};
use tt_instance::{Instance, MISSING_DAY_COST};

/// The lectures of a course, and the days of the week: the course can have no more days than either.
#[derive(Clone, Copy)]
struct MostDays {
    lectures: u32,
    days: u32,
}

impl fmt::Display for MostDays {
    fn fmt<W: fmt::Write>(&self, f: &mut fmt::Formatter<W>) -> fmt::Result {
        let MostDays { lectures, days } = *self;
        if lectures < days {
            let lectures = Counted(u64::from(lectures), Noun::Lecture);
            return write!(f, " and has {lectures}");
        }
        write!(f, ", the week has {days}")
    }
}

/// Appends a line if a course asks for more days than it can have.
fn put_days(text: &mut String, instance: &Instance<'_>, course: u32) -> Result<(), AllocError>
    requires { course < length instance.now.courses }
{
    let wanted = instance.min_days(course);
    let lectures = instance.lectures(course);
    let days = instance.days();
    let lacking = wanted.saturating_sub(lectures.min(days));
    if lacking == 0 {
        return Ok(());
    }
    let name = Name {
        bytes: instance.course_id(course),
    };
    let cost = u64::from(lacking).saturating_mul(u64::from(MISSING_DAY_COST));
    let wanted = Counted(u64::from(wanted), Noun::Day);
    let most = MostDays { lectures, days };
    writeln!(
        text,
        "costs {cost} at least: course {name} wants {wanted}{most}"
    )
}

/// Appends a line if a course has more students than any room has seats.
fn put_students(
    text: &mut String,
    instance: &Instance<'_>,
    seats: Option<u32>,
    course: u32,
) -> Result<(), AllocError>
    requires { course < length instance.now.courses }
{
    let Some(seats) = seats else {
        return Ok(());
    };
    let students = instance.students(course);
    let over = u64::from(students.saturating_sub(seats));
    let cost = over.saturating_mul(u64::from(instance.lectures(course)));
    if cost == 0 {
        return Ok(());
    }
    let name = Name {
        bytes: instance.course_id(course),
    };
    let students = Counted(u64::from(students), Noun::Student);
    let seats = Counted(u64::from(seats), Noun::Seat);
    writeln!(
        text,
        "costs {cost} at least: course {name} has {students}, the largest room {seats}"
    )
}

/// Appends the lines about the costs of each course.
fn put_courses(text: &mut String, instance: &Instance<'_>) -> Result<(), AllocError> {
    let seats = most_seats(instance);
    for course in 0..instance.courses() {
        put_days(text, instance, course)?;
        put_students(text, instance, seats, course)?;
    }
    Ok(())
}

/// Appends a line for each thing that should be checked, or a line that there is none; returns whether something is impossible.
pub fn put_advice(
    text: &mut String,
    instance: &Instance<'_>,
    counts: &Counts,
) -> Result<bool, AllocError> {
    let before = text.len();
    let some = put_impossible(text, instance, counts)?;
    put_courses(text, instance)?;
    put_concerns(text, instance, counts)?;
    put_alike(text, instance)?;
    if text.len() == before {
        text.push_str("nothing to look at\n")?;
    }
    Ok(some)
}
