//! The rules that a solution breaks and its costs, in words.

use std::alloc::AllocError;
use std::fmt;
use tt_inspect_words::{Counted, Name, Noun};
use tt_instance::Instance;
use tt_rules::Score;
use tt_table::Timetable;

/// A hard rule.
#[derive(Clone, Copy)]
enum Rule {
    Lectures,
    Conflicts,
    Availability,
    RoomOccupancy,
}

impl fmt::Display for Rule {
    fn fmt<W: fmt::Write>(&self, f: &mut fmt::Formatter<W>) -> fmt::Result {
        f.write_str(match self {
            Rule::Lectures => "each course has its lectures, in periods of their own (lectures)",
            Rule::Conflicts => "no teacher and no curriculum is in two places at once (conflicts)",
            Rule::Availability => "no course meets where it can't (availability)",
            Rule::RoomOccupancy => "a room holds one lecture at a time (room_occupancy)",
        })
    }
}

/// Appends a line that says how often a hard rule is broken, if it is.
fn put_broken(text: &mut String, count: u64, rule: Rule) -> Result<(), AllocError> {
    if count == 0 {
        return Ok(());
    }
    let times = Counted(count, Noun::Time);
    writeln!(text, "broken {times}: {rule}")
}

/// Appends the lines of the hard rules that are broken, or a line that none is.
fn put_hard(text: &mut String, score: &Score) -> Result<(), AllocError> {
    if score.feasible() {
        return writeln!(text, "no hard rule is broken");
    }
    for (count, rule) in [
        (score.lectures, Rule::Lectures),
        (score.conflicts, Rule::Conflicts),
        (score.availability, Rule::Availability),
        (score.room_occupancy, Rule::RoomOccupancy),
    ] {
        put_broken(text, count, rule)?;
    }
    Ok(())
}

/// Appends the line of the cost and its four parts.
fn put_cost(text: &mut String, score: &Score) -> Result<(), AllocError> {
    let cost = score.cost();
    let seats = score.room_capacity;
    let days = score.min_working_days;
    let alone = score.compactness;
    let rooms = score.room_stability;
    writeln!(
        text,
        "cost {cost}: {seats} for students without a seat, {days} for days that courses lack, {alone} for lectures of a curriculum that are alone, {rooms} for changes of room"
    )
}

/// Appends a line if a course has another number of entries than of lectures.
fn put_entries(
    text: &mut String,
    name: Name<'_>,
    found: u64,
    lectures: u64,
) -> Result<(), AllocError> {
    if found == lectures {
        return Ok(());
    }
    let lectures = Counted(lectures, Noun::Lecture);
    writeln!(text, "course {name}: {found} of {lectures}")
}

/// Appends a line for each course whose number of entries differs from its number of lectures.
fn put_missing(
    text: &mut String,
    instance: &Instance<'_>,
    table: &Timetable,
) -> Result<(), AllocError> {
    let mut placed = vec![in *text.allocator(); 0u64; instance.courses() as usize]?;
    for entry in table.entries() {
        if let Some(count) = placed.get_mut(entry.course as usize) {
            *count = count.saturating_add(1);
        }
    }
    for course in 0..instance.courses() {
        let name = Name {
            bytes: instance.course_id(course),
        };
        let lectures = u64::from(instance.lectures(course));
        let found = placed.get(course as usize).copied().unwrap_or(0);
        put_entries(text, name, found, lectures)?;
    }
    Ok(())
}

/// Appends the rules that a solution breaks, its costs, and the courses whose number of entries differs from their number of lectures.
pub fn put_score(
    text: &mut String,
    instance: &Instance<'_>,
    table: &Timetable,
    score: &Score,
) -> Result<(), AllocError> {
    let placed = Counted(table.len() as u64, Noun::Lecture);
    writeln!(text, "the solution has {placed}")?;
    put_hard(text, score)?;
    put_cost(text, score)?;
    put_missing(text, instance, table)
}
