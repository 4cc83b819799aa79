//! Reporting a search to a watch.

use crate::search::Search;
use tt_table::Entry;
use tt_watch::{Pair, Progress, Unit, Watch};

/// Reports a search that has opened this many nodes, with the place of the open node of the least value: that value is a lower bound for every
/// timetable that costs less than the best.
pub fn show<W: Watch>(watch: &mut W, search: &Search, place: usize, opened: u32, limit: u32) {
    let bound = search.tree_nodes.get(place).map(|node| node.key);
    let best = search.best.as_ref();
    let entries: &[Entry] = match best {
        Some(best) => best.table.entries(),
        None => &[],
    };
    watch.see(
        Progress {
            unit: Unit::Nodes,
            done: u64::from(opened),
            limit: u64::from(limit),
            best: best.map(|best| Pair {
                hard: 0,
                cost: best.cost,
            }),
            bound,
            tried: None,
        },
        entries,
    );
}
