//! Searches below a root of facts, and from a given timetable.

ghost use Rattle.std.specs.Prelude.{◌≡◌, ◌<◌, true, IfSome};
ghost use Rattle.tt_table.specs.Table.{IsTimetable};
ghost use Rattle.tt_path.specs.Facts.{IsPattern, IsWho};
ghost use Rattle.tt_leaf_find.specs.Found.{ArePatterns};

use std::alloc::Global;
use std::test::Fail;
use tt_branch::{Outcome, Start, solve};
use tt_instance::Instance;
use tt_instance_read::read_instance;
use tt_leaf::Bound;
use tt_path::{Fact, Pattern, Who};
use tt_table::{Entry, Timetable};
use tt_watch::Unwatched;

/// A course of ten students, and two rooms in two periods, of which the second has five seats too few.
const ROOMY: &str =
    "Name: Roomy\nCourses: 1\nRooms: 2\nDays: 1\nPeriods_per_day: 2\nCurricula: 0\nConstraints: 0\n\nCOURSES:\nx t 1 1 10\n\nROOMS:\nA 10\nB 5\n\nCURRICULA:\n\nUNAVAILABILITY_CONSTRAINTS:\n\nEND.\n";

/// Returns the fact that the course has no entry in a room.
fn closed(room: u32) -> Fact {
    Fact {
        pattern: Pattern {
            who: Who::Course(0),
            room: Some(room),
            day: None,
            period: None,
        },
        holds: false,
    }
}

fn is_given(given: Option<u32>, count: u32) -> bool
    ensures { result ≡ true → IfSome given (λ n. n < count) }
{
    match given {
        None => true,
        Some(number) => number < count,
    }
}

fn is_there(instance: &Instance<'_>, who: Who) -> bool
    ensures { result ≡ true → IsWho instance.now who }
{
    match who {
        Who::Course(course) => course < instance.courses(),
        Who::Curriculum(curriculum) => curriculum < instance.curricula(),
    }
}

fn is_pattern(instance: &Instance<'_>, pattern: Pattern) -> bool
    ensures { result ≡ true → IsPattern instance.now pattern }
{
    is_there(instance, pattern.who)
        && is_given(pattern.room, instance.rooms())
        && is_given(pattern.day, instance.days())
        && is_given(pattern.period, instance.periods())
}

fn are_patterns(instance: &Instance<'_>, root: &[Fact]) -> bool
    ensures { result ≡ true → ArePatterns instance.now root.now }
{
    root.iter().all(|fact| is_pattern(instance, fact.pattern))
}

fn is_table(instance: &Instance<'_>, table: &Option<Timetable>) -> bool
    ensures { result ≡ true → IfSome table.now (IsTimetable instance.now) }
{
    match table {
        None => true,
        Some(table) => table.fits(instance),
    }
}

fn entry_in(room: u32) -> Entry {
    Entry {
        course: 0,
        room,
        day: 0,
        period: 1,
    }
}

/// Returns the timetable of one entry.
fn table_in(alloc: Global, room: u32) -> Result<Option<Timetable>, Fail> {
    let mut table = Timetable::new(alloc);
    table.push_below_limit(entry_in(room))?;
    Ok(Some(table))
}

/// Returns the result of a search on Roomy, and the entries of its best timetable.
fn searched(alloc: Global, start: Start<'_>) -> Result<(Outcome, Vec<Entry>), Fail> {
    let instance = read_instance(alloc, ROOMY.as_bytes())?;
    if start.root.len() > 10 || !are_patterns(&instance, start.root) {
        return Err(Fail::new("the root is wrong"));
    }
    if !is_table(&instance, &start.table) {
        return Err(Fail::new("the timetable is wrong"));
    }
    let outcome = solve(alloc, &instance, start, 100, 1, &mut Unwatched)?;
    let mut entries = Vec::new(alloc);
    if let Some(table) = &outcome.best {
        for entry in table.entries() {
            entries.push(*entry)?;
        }
    }
    Ok((outcome, entries))
}

/// Returns the bound of a search on Roomy, whether it is finished, and the rooms of its best timetable.
fn rooms_of(alloc: Global, start: Start<'_>) -> Result<(Bound, bool, Vec<u32>), Fail> {
    let (outcome, entries) = searched(alloc, start)?;
    let mut rooms = Vec::new(alloc);
    for entry in &entries {
        rooms.push(entry.room)?;
    }
    Ok((outcome.bound, outcome.finished, rooms))
}

#[test]
fn no_fact(rt: HostRuntime) -> Result<(), Fail> {
    let start = Start {
        root: &[],
        table: None,
    };
    let (bound, finished, rooms) = rooms_of(rt.alloc(), start)?;
    assert_eq!(rt; (bound, finished), (Bound::AtLeast(0), true));
    assert_eq!(rt; rooms.as_slice(), [0].as_slice());
    Ok(())
}

#[test]
fn a_closed_room(rt: HostRuntime) -> Result<(), Fail> {
    let start = Start {
        root: &[closed(0)],
        table: None,
    };
    let (bound, finished, rooms) = rooms_of(rt.alloc(), start)?;
    assert_eq!(rt; (bound, finished), (Bound::AtLeast(5), true));
    assert_eq!(rt; rooms.as_slice(), [1].as_slice());
    Ok(())
}

#[test]
fn both_rooms_closed(rt: HostRuntime) -> Result<(), Fail> {
    let start = Start {
        root: &[closed(0), closed(1)],
        table: None,
    };
    let (bound, finished, rooms) = rooms_of(rt.alloc(), start)?;
    assert_eq!(rt; (bound, finished), (Bound::Nothing, true));
    assert!(rt; rooms.is_empty());
    Ok(())
}

#[test]
fn a_given_table_that_fits(rt: HostRuntime) -> Result<(), Fail> {
    let start = Start {
        root: &[closed(0)],
        table: table_in(rt.alloc(), 1)?,
    };
    let (outcome, entries) = searched(rt.alloc(), start)?;
    assert_eq!(rt;
        (outcome.bound, outcome.finished),
        (Bound::AtLeast(5), true)
    );
    assert_eq!(rt; entries.as_slice(), [entry_in(1)].as_slice());
    Ok(())
}

#[test]
fn a_given_table_that_does_not_fit(rt: HostRuntime) -> Result<(), Fail> {
    let start = Start {
        root: &[closed(0)],
        table: table_in(rt.alloc(), 0)?,
    };
    let (bound, finished, rooms) = rooms_of(rt.alloc(), start)?;
    assert_eq!(rt; (bound, finished), (Bound::AtLeast(5), true));
    assert_eq!(rt; rooms.as_slice(), [1].as_slice());
    Ok(())
}

#[test]
fn a_given_table_that_is_improved(rt: HostRuntime) -> Result<(), Fail> {
    let start = Start {
        root: &[],
        table: table_in(rt.alloc(), 1)?,
    };
    let (bound, finished, rooms) = rooms_of(rt.alloc(), start)?;
    assert_eq!(rt; (bound, finished), (Bound::AtLeast(0), true));
    assert_eq!(rt; rooms.as_slice(), [0].as_slice());
    Ok(())
}
