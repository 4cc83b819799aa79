//! What a known timetable costs.

ghost use Rattle.std.specs.Prelude.{IfOk, IfSome};
ghost use Rattle.tt_table.specs.Table.{IsTimetable};

use std::alloc::{AllocError, Global};
use tt_instance::Instance;
use tt_leaf::Bound;
use tt_rules::score;
use tt_table::{Entry, PushFault, Timetable};

/// Returns the timetable with these entries; `None` if they aren't a timetable of the instance.
fn table_of(
    alloc: Global,
    instance: &Instance<'_>,
    entries: &[Entry],
) -> Result<Option<Timetable>, AllocError>
    ensures { IfOk result (λ found. IfSome found (IsTimetable instance.now)) }
{
    let mut table = Timetable::new(alloc);
    for entry in entries {
        match table.push(*entry) {
            Ok(()) => {}
            Err(PushFault::Full) => return Ok(None),
            Err(PushFault::OutOfMemory) => return Err(AllocError),
        }
    }
    if table.fits(instance) {
        Ok(Some(table))
    } else {
        Ok(None)
    }
}

/// Returns the cost of the timetable with these entries; `None` if it breaks a hard rule.
pub fn cost_of(
    alloc: Global,
    instance: &Instance<'_>,
    entries: &[Entry],
) -> Result<Option<u64>, AllocError> {
    let Some(table) = table_of(alloc, instance, entries)? else {
        return Ok(None);
    };
    let score = score(instance, &table);
    if score.feasible() {
        Ok(Some(score.cost()))
    } else {
        Ok(None)
    }
}

/// Checks whether no bound can be greater, since it is the cost of a known timetable, or says that there is none.
pub fn is_greatest(bound: Bound, known: Option<u64>) -> bool {
    match (bound, known) {
        (Bound::Nothing, _) => true,
        (Bound::AtLeast(points), Some(cost)) => cost <= points,
        (Bound::AtLeast(_), None) => false,
    }
}
