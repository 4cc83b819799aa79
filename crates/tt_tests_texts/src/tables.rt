//! Timetables, tested by the library's calls.

use std::alloc::Global;
use std::test::Fail;
use tt_instance::Instance;
use tt_instance_read::read_instance;
use tt_rules::score;
use tt_table::{Entry, MAX_ENTRIES, PushFault, Timetable, read_solution, write_solution};
use tt_testing_samples::{MINI, repeated};

/// A lecture of Mini's first course, and a lecture of its second course.
const ENTRIES: [Entry; 2] = [
    Entry {
        course: 0,
        room: 0,
        day: 0,
        period: 0,
    },
    Entry {
        course: 1,
        room: 0,
        day: 0,
        period: 1,
    },
];

/// Checks that a text is read as these entries, a copy of them fits, and the copy is written as these lines.
fn is_read_as(
    alloc: Global,
    instance: &Instance<'_>,
    text: &str,
    entries: &[Entry],
    lines: &str,
) -> Result<bool, Fail> {
    let table = read_solution(alloc, instance, text.as_bytes())?;
    let copy = table.copy()?;
    let same = table.entries() == entries && copy.entries() == entries && copy.fits(instance);
    let written = write_solution(alloc, instance, &copy)?;
    Ok(same && written.as_slice() == lines.as_bytes())
}

#[test]
fn a_solution_is_read_copied_and_written(rt: HostRuntime) -> Result<(), Fail> {
    let instance = read_instance(rt.alloc(), MINI.as_bytes())?;
    for (text, entries, lines) in [
        ("a R 0 0 b R 0 1", ENTRIES.as_slice(), "a R 0 0\nb R 0 1\n"),
        ("\x0b\n", [].as_slice(), ""),
    ] {
        assert!(rt;
            is_read_as(rt.alloc(), &instance, text, entries, lines)?,
            "{text}"
        );
    }
    Ok(())
}

/// Pushes an entry to a table with room for another, and then another one, and returns the table's results.
fn push_two(
    table: &mut Timetable,
    first: Entry,
    second: Entry,
) -> (Result<(), PushFault>, Result<(), PushFault>) {
    let pushed = table.push(first);
    (pushed, table.push(second))
}

#[test]
fn pushed_entries(rt: HostRuntime) -> Result<(), Fail> {
    let instance = read_instance(rt.alloc(), MINI.as_bytes())?;
    let [first, last] = ENTRIES;
    let lines = repeated(rt.alloc(), "a R 0 0\n", MAX_ENTRIES - 1)?;
    let mut table = read_solution(rt.alloc(), &instance, lines.as_bytes())?;
    let pushed = push_two(&mut table, last, first);
    assert_eq!(rt; pushed, (Ok(()), Err(PushFault::Full)));
    // The refused entry does not change the table.
    let entries = table.entries();
    assert_eq!(rt; entries.len(), 16_384);
    assert_eq!(rt;
        (entries.first(), entries.last()),
        (Some(&first), Some(&last))
    );
    Ok(())
}

#[test]
fn entries_out_of_range_do_not_fit(rt: HostRuntime) -> Result<(), Fail> {
    let instance = read_instance(rt.alloc(), MINI.as_bytes())?;
    for (course, room, day, period, fits) in [
        (1, 0, 0, 2, true),
        (2, 0, 0, 2, false),
        (1, 1, 0, 2, false),
        (1, 0, 1, 2, false),
        (1, 0, 0, 3, false),
    ] {
        let mut table = Timetable::new(rt.alloc());
        table.push(Entry {
            course,
            room,
            day,
            period,
        })?;
        assert_eq!(rt; table.fits(&instance), fits);
    }
    Ok(())
}

/// Returns the hard count and the cost of a text, and whether it is feasible.
fn score_of(alloc: Global, instance: &Instance<'_>, text: &str) -> Result<(u64, u64, bool), Fail> {
    let table = read_solution(alloc, instance, text.as_bytes())?;
    if !table.fits(instance) {
        return Err(Fail::new(format_args!("{text} doesn't fit")));
    }
    let score = score(instance, &table);
    Ok((score.hard(), score.cost(), score.feasible()))
}

#[test]
fn scores(rt: HostRuntime) -> Result<(), Fail> {
    let instance = read_instance(rt.alloc(), MINI.as_bytes())?;
    for (text, hard, cost) in [
        ("a R 0 0 b R 0 1", 0, 1),
        ("a R 0 0 b R 0 2", 0, 5),
        ("", 2, 10),
    ] {
        let wanted = (hard, cost, hard == 0);
        assert_eq!(rt; score_of(rt.alloc(), &instance, text)?, wanted, "of {text}");
    }
    Ok(())
}
