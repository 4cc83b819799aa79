//! Several runs of the improvement, each from the best timetable so far.

ghost use Rattle.std.specs.Prelude.{◌-◌, ◌/◌, IfOk};
ghost use Rattle.tt_table.specs.Table.{IsTimetable};
ghost use Rattle.tt_walk.specs.Improved.{IsNoWorse};
ghost use Rattle.tt_search.specs.Runs.{RunsUntil};

use crate::improving::improve;
use std::alloc::{AllocError, Global};
use tt_instance::Instance;
use tt_table::Timetable;
use tt_watch::Watch;

/// The seed of a search and its number of steps.
#[derive(Clone, Copy, Debug, PartialEq, Eq)]
pub struct Search {
    pub seed: u64,
    pub steps: u64,
}

/// Improves a timetable in this many runs, each from the result of the run before, with the seed increased by 1 each time. No run begins
/// once the watch has ended the search.
pub fn improve_in_runs<W: Watch>(
    alloc: Global,
    instance: &Instance<'_>,
    table: Timetable,
    search: Search,
    runs: u64,
    watch: &mut W,
) -> Result<Timetable, AllocError>
    requires { IsTimetable instance.now table }
    ensures no_worse { IfOk result (IsNoWorse instance.now table) }
    ensures runs { IfOk result (RunsUntil instance.now table (search.steps / 2) (search.steps - search.steps / 2) runs (W.has_ended watch.new)) }
{
    let Search { seed, steps } = search;
    let mut table = table;
    for run in 0..runs {
        if watch.is_over() {
            return Ok(table);
        }
        table = improve(alloc, instance, table, seed.wrapping_add(run), steps, watch)?;
    }
    Ok(table)
}
