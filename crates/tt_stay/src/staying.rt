//! The improvement near an older timetable.

ghost use Rattle.std.specs.Prelude.{IfOk};
ghost use Rattle.tt_table.specs.Table.{IsTimetable};
ghost use Rattle.tt_stay.specs.Rearranged.{IsRearranged};
ghost use Rattle.tt_stay.specs.Staying.{IsNear};

use crate::drawing::Guide;
use crate::homes::Homes;
use crate::prices::Prices;
use crate::searching::search_near;
use crate::stay::Search;
use crate::weight::{Weight, weigh};
use std::alloc::{AllocError, Global};
use tt_instance::Instance;
use tt_table::Timetable;
use tt_watch::Watch;

/// A timetable, and its weight.
#[derive(Drop)]
pub struct Near {
    pub table: Timetable,
    pub weight: Weight,
}

/// Searches in this many runs, each from the timetable that the run before it found and with the seed counted up. No run begins once the watch
/// has ended the search.
pub fn search_in_runs<P: Prices, W: Watch>(
    alloc: Global,
    instance: &Instance<'_>,
    guide: &Guide<'_, P>,
    start: Timetable,
    search: Search,
    watch: &mut W,
) -> Result<Timetable, AllocError>
    requires { IsTimetable instance.now start }
    ensures { IfOk result (IsRearranged instance.now start) }
{
    let mut table = start;
    for run in 0..search.runs {
        if watch.is_over() {
            break;
        }
        let next = Search {
            seed: search.seed.wrapping_add(run),
            ..search
        };
        table = search_near(alloc, instance, guide, table, next, watch)?;
    }
    Ok(table)
}

/// Searches from a timetable for one with a lower weight: fewer broken hard rules, or equally many and a lower total of the cost and of the
/// prices of the lectures that left their places in the older timetable. The same seed gives the same result on every machine, unless the
/// watch ends the search. It is not proved that the result is mostly better.
pub fn improve_near<W: Watch>(
    alloc: Global,
    instance: &Instance<'_>,
    older: &Timetable,
    start: Timetable,
    search: Search,
    watch: &mut W,
) -> Result<Near, AllocError>
    requires older { IsTimetable instance.now older.now }
    requires start { IsTimetable instance.now start }
    ensures { IfOk result (IsNear instance.now older.now start search.stay) }
{
    let first = Near {
        weight: weigh(alloc, instance, older, &start)?,
        table: start.copy()?,
    };
    let homes = Homes::new(alloc, instance, older.entries(), search.stay)?;
    let guide = Guide {
        older: older.entries(),
        prices: &homes,
    };
    let table = search_in_runs(alloc, instance, &guide, start, search, watch)?;
    let found = Near {
        weight: weigh(alloc, instance, older, &table)?,
        table,
    };
    if !found.weight.is_below(first.weight, search.stay) {
        return Ok(first);
    }
    Ok(found)
}
