//! Timetables with their counts, from texts and back.

use std::alloc::Global;
use std::test::Fail;
use tt_instance::Instance;
use tt_occupancy::Occupied;
use tt_table::{read_solution, write_solution};

/// Returns the timetable that a solution spells, with its counts.
pub fn occupied<'a, 'i>(
    alloc: Global,
    instance: &'a Instance<'i>,
    solution: &str,
) -> Result<Occupied<'a, 'i>, Fail> {
    let table = read_solution(alloc, instance, solution.as_bytes())?;
    match Occupied::new(alloc, instance, table) {
        Ok(occupied) => Ok(occupied),
        Err(_) => Err(Fail::new(format_args!("no memory"))),
    }
}

/// Returns the text of the current timetable.
pub fn text_of(alloc: Global, occupied: &Occupied<'_, '_>) -> Result<String, Fail> {
    let text = write_solution(alloc, occupied.instance(), occupied.table())?;
    Ok(String::from_utf8(text)?)
}
