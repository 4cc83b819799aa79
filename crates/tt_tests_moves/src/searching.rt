//! The results of construction, descent and search.

use std::alloc::Global;
use std::test::Fail;
use tt_instance_read::read_instance;
use tt_rules::score;
use tt_search::{Unwatched, construct, descend, improve};
use tt_table::{Timetable, read_solution, write_solution};
use tt_testing_samples::{FLAT, FLAT_SOLUTION, MINI, MINI_SOLUTION, WIDE, edited};

/// Returns the number of entries of a course.
fn lectures_of(table: &Timetable, course: u32) -> usize {
    table
        .entries()
        .iter()
        .filter(|it| it.course == course)
        .count()
}

/// Returns the numbers of entries of the first and the second course in a constructed timetable of Mini, and its hard count.
fn constructed(alloc: Global, seed: u64) -> Result<((usize, usize), u64), Fail> {
    let instance = read_instance(alloc, MINI.as_bytes())?;
    let table = construct(alloc, &instance, seed)?;
    let lectures = (lectures_of(&table, 0), lectures_of(&table, 1));
    Ok((lectures, score(&instance, &table).hard()))
}

#[test]
fn the_lectures_of_each_course(rt: HostRuntime) -> Result<(), Fail> {
    assert_eq!(rt; constructed(rt.alloc(), 7)?, ((1, 1), 0));
    Ok(())
}

#[test]
fn no_lectures_without_rooms(rt: HostRuntime) -> Result<(), Fail> {
    let text = edited(rt.alloc(), WIDE, "Rooms: 1", "Rooms: 0")?;
    let text = edited(rt.alloc(), &text, "R 11\n", "")?;
    let instance = read_instance(rt.alloc(), text.as_bytes())?;
    let table = construct(rt.alloc(), &instance, 1)?;
    assert_eq!(rt; table.len(), 0);
    Ok(())
}

/// Returns whether a descent settled, the cost at its end, and whether the timetable is unchanged.
fn descended(
    alloc: Global,
    instance: &str,
    solution: &str,
    steps: u64,
) -> Result<(bool, u64, bool), Fail> {
    let instance = read_instance(alloc, instance.as_bytes())?;
    let table = read_solution(alloc, &instance, solution.as_bytes())?;
    let descent = descend(alloc, &instance, table, steps)?;
    let after = write_solution(alloc, &instance, &descent.table)?;
    let stayed = after.as_slice() == solution.as_bytes();
    Ok((
        descent.settled,
        score(&instance, &descent.table).cost(),
        stayed,
    ))
}

#[test]
fn descents(rt: HostRuntime) -> Result<(), Fail> {
    for (instance, solution, steps, reported) in [
        (MINI, MINI_SOLUTION, 0, (false, 5, true)),
        (MINI, MINI_SOLUTION, 10, (true, 1, false)),
        (FLAT, FLAT_SOLUTION, 10, (true, 1, true)),
    ] {
        assert_eq!(rt; descended(rt.alloc(), instance, solution, steps)?, reported);
    }
    Ok(())
}

/// Returns the text of the result of `improve` on Mini's solution with 50 steps.
fn improved_text(alloc: Global, seed: u64) -> Result<Vec<u8>, Fail> {
    let instance = read_instance(alloc, MINI.as_bytes())?;
    let table = read_solution(alloc, &instance, MINI_SOLUTION.as_bytes())?;
    let better = improve(alloc, &instance, table, seed, 50, &mut Unwatched)?;
    Ok(write_solution(alloc, &instance, &better)?)
}

#[test]
fn a_seed_gives_one_answer(rt: HostRuntime) -> Result<(), Fail> {
    let first = improved_text(rt.alloc(), 3)?;
    let second = improved_text(rt.alloc(), 3)?;
    assert_eq!(rt; first.as_slice(), second.as_slice());
    Ok(())
}
