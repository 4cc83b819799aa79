//! What no timetable can have: more lectures than a whole week takes, and courses that have more lectures than is open to them.

use crate::shortages::put_shortages;
use std::alloc::AllocError;
use tt_inspect_words::{Counted, Counts, Name, Noun, periods_of_week, places};
use tt_instance::Instance;

/// Appends a line if the instance has more lectures than places.
fn put_places(
    text: &mut String,
    instance: &Instance<'_>,
    counts: &Counts,
) -> Result<(), AllocError> {
    let lectures = counts.lectures();
    let places = places(instance);
    if lectures <= places {
        return Ok(());
    }
    let verb = if lectures == 1 { "is" } else { "are" };
    let lectures = Counted(lectures, Noun::Lecture);
    let places = Counted(places, Noun::Place);
    writeln!(
        text,
        "can't be: there {verb} {lectures}, the rooms have {places} in the week"
    )
}

/// Appends the line of a group of courses no two of which can meet at the same time, if it has more lectures than the week has periods.
fn put_group(
    text: &mut String,
    instance: &Instance<'_>,
    kind: Noun,
    name: Name<'_>,
    lectures: u64,
) -> Result<(), AllocError> {
    let periods = periods_of_week(instance);
    if lectures <= periods {
        return Ok(());
    }
    let lectures = Counted(lectures, Noun::Lecture);
    let periods = Counted(periods, Noun::Period);
    writeln!(
        text,
        "can't be: {kind} {name} has {lectures}, the week has {periods}"
    )
}

/// Appends a line for each curriculum and each teacher with more lectures than the week has periods.
fn put_groups(
    text: &mut String,
    instance: &Instance<'_>,
    counts: &Counts,
) -> Result<(), AllocError> {
    for curriculum in 0..instance.curricula() {
        let name = Name {
            bytes: instance.curriculum_id(curriculum),
        };
        let lectures = counts.lectures_of(instance.members(curriculum));
        put_group(text, instance, Noun::Curriculum, name, lectures)?;
    }
    for teacher in 0..instance.teachers() {
        let name = Name {
            bytes: instance.teacher_name(teacher),
        };
        let lectures = counts.lectures_of(counts.taught_by(teacher));
        put_group(text, instance, Noun::Teacher, name, lectures)?;
    }
    Ok(())
}

/// Appends a line for each reason that is found why no timetable breaks no hard rule; returns whether one is found.
pub fn put_impossible(
    text: &mut String,
    instance: &Instance<'_>,
    counts: &Counts,
) -> Result<bool, AllocError> {
    let before = text.len();
    put_places(text, instance, counts)?;
    put_groups(text, instance, counts)?;
    put_shortages(text, instance)?;
    Ok(text.len() > before)
}
