//! Cells that become dead as facts are added and live again as facts are removed, by both paths.

use std::alloc::Global;
use std::test::Fail;
use tt_instance_read::read_instance;
use tt_path::{Cell, Fact, MAX_FACTS, Path, PathFault, Pattern, PlainPath, Who};
use tt_path_trail::TrailPath;
use tt_testing_samples::{GAP, MINI};

/// Returns a fact about all cells of a course or of a curriculum's members.
pub fn fact_of(who: Who, holds: bool) -> Fact {
    let pattern = Pattern {
        who,
        room: None,
        day: None,
        period: None,
    };
    Fact { pattern, holds }
}

/// Returns a fact about the cells of a course or of a curriculum's members in a period of the first day.
pub fn fact_in_period(who: Who, period: u32, holds: bool) -> Fact {
    let pattern = Pattern {
        who,
        room: None,
        day: Some(0),
        period: Some(period),
    };
    Fact { pattern, holds }
}

/// Adds a fact, and returns whether the path accepted it.
pub fn pushed<'i, P: Path<'i>>(path: &mut P, fact: Fact) -> bool {
    path.push(fact).is_ok()
}

/// Removes and returns the newest fact, or returns `None` if there is none.
pub fn popped<'i, P: Path<'i>>(path: &mut P) -> Option<Fact> {
    if path.depth() == 0 {
        return None;
    }
    Some(path.pop())
}

/// Returns whether a course's cell in the first room, in a period of the first day, is dead; `None` if there is no such cell.
fn is_dead<'i, P: Path<'i>>(path: &P, course: u32, period: u32) -> Option<bool> {
    let instance = path.instance();
    if course >= instance.courses()
        || instance.rooms() == 0
        || instance.days() == 0
        || period >= instance.periods()
    {
        return None;
    }
    Some(path.dead(Cell {
        course,
        room: 0,
        day: 0,
        period,
    }))
}

/// Whether the second course's cells in the first and in the last period of Gap are dead, and the first course's cell in the last period.
#[derive(Clone, Copy, PartialEq, Eq)]
struct DeadCells {
    second_first: Option<bool>,
    second_last: Option<bool>,
    first_last: Option<bool>,
}

fn seen<'i, P: Path<'i>>(path: &P) -> DeadCells {
    DeadCells {
        second_first: is_dead(path, 1, 0),
        second_last: is_dead(path, 1, 2),
        first_last: is_dead(path, 0, 2),
    }
}

/// Returns the state of the three cells of Gap, if all of them exist.
fn of_cells(second_first: bool, second_last: bool, first_last: bool) -> DeadCells {
    DeadCells {
        second_first: Some(second_first),
        second_last: Some(second_last),
        first_last: Some(first_last),
    }
}

/// Adds facts, as far as the path accepts them.
fn push_all<'i, P: Path<'i>>(path: &mut P, facts: &[Fact]) {
    for fact in facts {
        let _taken = pushed(path, *fact);
    }
}

/// Checks that a path has the first of these states after the facts, and the next one after each pop.
fn shows<'i, P: Path<'i>>(path: &mut P, facts: &[Fact], reported: &[DeadCells]) -> bool {
    push_all(path, facts);
    for cells in reported {
        if seen(path) != *cells {
            return false;
        }
        let _gone = popped(path);
    }
    true
}

/// Returns whether the plain path and the other path of Gap have these states.
fn both_show(alloc: Global, facts: &[Fact], reported: &[DeadCells]) -> Result<(bool, bool), Fail> {
    let instance = read_instance(alloc, GAP.as_bytes())?;
    let mut plain = PlainPath::new(alloc, &instance);
    let mut trail = TrailPath::new(alloc, &instance)?;
    Ok((
        shows(&mut plain, facts, reported),
        shows(&mut trail, facts, reported),
    ))
}

#[test]
fn a_fact_bars_cells_and_its_pop_frees_them(rt: HostRuntime) -> Result<(), Fail> {
    let fact = fact_in_period(Who::Course(0), 0, true);
    // The first course takes the first period: its other cells remain live, since it may have more lectures.
    let reported = [of_cells(true, false, false), of_cells(false, false, false)];
    assert_eq!(rt; both_show(rt.alloc(), &[fact], &reported)?, (true, true));
    Ok(())
}

#[test]
fn a_no_fact_of_a_curriculum_then_a_yes_fact(rt: HostRuntime) -> Result<(), Fail> {
    let barred = fact_in_period(Who::Curriculum(0), 0, false);
    let taken = fact_of(Who::Course(0), true);
    let reported = [
        of_cells(true, true, false),
        of_cells(true, false, false),
        of_cells(false, false, false),
    ];
    assert_eq!(rt;
        both_show(rt.alloc(), &[barred, taken], &reported)?,
        (true, true)
    );
    Ok(())
}

#[test]
fn a_yes_fact_then_a_no_fact_that_leaves_it_one_period(rt: HostRuntime) -> Result<(), Fail> {
    let taken = fact_of(Who::Course(0), true);
    let barred = fact_in_period(Who::Course(0), 0, false);
    let reported = [
        of_cells(false, true, false),
        of_cells(false, false, false),
        of_cells(false, false, false),
    ];
    assert_eq!(rt;
        both_show(rt.alloc(), &[taken, barred], &reported)?,
        (true, true)
    );
    Ok(())
}

/// Adds a fact as often as a path may accept facts, and returns whether it accepted each.
fn filled<'i, P: Path<'i>>(path: &mut P, fact: Fact) -> bool {
    for _ in 0..MAX_FACTS {
        if path.push(fact).is_err() {
            return false;
        }
    }
    true
}

/// Checks that a path accepts one fact as often as it may accept facts, and then no other.
fn takes_no_more<'i, P: Path<'i>>(path: &mut P, fact: Fact, other: Fact) -> bool {
    filled(path, fact)
        && path.push(other) == Err(PathFault::TooDeep)
        && path.depth() == MAX_FACTS
        && path.has(&fact.pattern, true)
        && !path.has(&other.pattern, true)
}

#[test]
fn a_path_of_all_facts_takes_no_more(rt: HostRuntime) -> Result<(), Fail> {
    let instance = read_instance(rt.alloc(), MINI.as_bytes())?;
    let mut plain = PlainPath::new(rt.alloc(), &instance);
    let mut trail = TrailPath::new(rt.alloc(), &instance)?;
    let fact = fact_of(Who::Course(0), true);
    let other = fact_of(Who::Course(1), true);
    assert!(rt; takes_no_more(&mut plain, fact, other));
    assert!(rt; takes_no_more(&mut trail, fact, other));
    Ok(())
}
