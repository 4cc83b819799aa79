//! The tables of all days of a week.

use crate::allowance::Allowance;
use crate::day::Table;
use crate::layout::Layout;
use crate::sets::Set;
use std::alloc::{AllocError, Global};
use tt_instance::Instance;
use tt_watch::Watch;

/// Tables, and the number of the table that each day has.
#[derive(Drop)]
pub struct Days {
    pub tables: Vec<Table>,
    pub of_day: Vec<usize>,
}

/// Returns the courses that are available in each period of a day, a bit for each.
fn open_in(
    alloc: Global,
    instance: &Instance<'_>,
    layout: &Layout,
    day: u32,
) -> Result<Vec<u32>, AllocError> {
    let mut periods = Vec::new(alloc);
    for period in 0..instance.periods() {
        let mut word = 0;
        for (place, course) in layout.courses.iter().enumerate() {
            if !instance.unavailable(course.number, day, period) {
                word |= 1 << (place % 32);
            }
        }
        periods.push(word)?;
    }
    Ok(periods)
}

/// Returns the sets that each period can have.
fn sets_in(alloc: Global, open: &[u32], sets: &[Set]) -> Result<Vec<Vec<Set>>, AllocError> {
    let mut periods = Vec::new(alloc);
    for word in open {
        let mut able = Vec::new(alloc);
        for set in sets {
            if set.courses & !*word == 0 {
                able.push(*set)?;
            }
        }
        periods.push(able)?;
    }
    Ok(periods)
}

/// Returns the tables of all days, with the days that cost less than a limit; days with the same availability share a table. Returns `None`
/// if the work is used up.
pub fn days_of<W: Watch>(
    alloc: Global,
    instance: &Instance<'_>,
    layout: &Layout,
    sets: &[Set],
    limit: u32,
    work: &mut Allowance<'_, W>,
) -> Result<Option<Days>, AllocError> {
    let mut days = Days {
        tables: Vec::new(alloc),
        of_day: Vec::new(alloc),
    };
    let mut seen: Vec<Vec<u32>> = Vec::new(alloc);
    for day in 0..instance.days() {
        let open = open_in(alloc, instance, layout, day)?;
        let known = seen
            .iter()
            .position(|other| other.as_slice() == open.as_slice());
        if let Some(known) = known {
            days.of_day.push(known)?;
            continue;
        }
        let periods = sets_in(alloc, &open, sets)?;
        let Some(table) = Table::new(alloc, layout, limit, &periods, work)? else {
            return Ok(None);
        };
        days.of_day.push(days.tables.len())?;
        days.tables.push(table)?;
        seen.push(open)?;
    }
    Ok(Some(days))
}
