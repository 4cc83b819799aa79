//! The changes of a timetable, found.

ghost use Rattle.std.specs.Prelude.{◌≡◌, IfOk};
ghost use Rattle.tt_instance.specs.Problem.{Problem};
ghost use Rattle.tt_table.specs.Table.{IsTimetable};
ghost use Rattle.tt_changes.specs.Lists.{IsChanges};

use crate::change::Changes;
use crate::likeness::Likeness;
use crate::pairing::{Pairing, pair_up};
use std::alloc::{AllocError, Global};
use tt_table::Timetable;

/// Returns what changed from an older timetable to a newer one of the same instance: as few lectures as possible. Of the lectures of a course
/// that left their periods, the first ones of both timetables belong together, then the second ones, and so on.
pub fn find_changes(
    alloc: Global,
    older: &Timetable,
    newer: &Timetable,
) -> Result<Changes, AllocError>
    ensures { (p : Problem) → IsTimetable p older.now → IsTimetable p newer.now → IfOk result (IsChanges p older.now newer.now) }
{
    let all = newer.entries().to_vec(alloc)?;
    let Pairing {
        pairs: _,
        older: left,
        newer: come,
    } = pair_up(alloc, Likeness::Place, older.entries(), all)?;
    let Pairing {
        pairs: rooms,
        older: left,
        newer: come,
    } = pair_up(alloc, Likeness::Period, &left, come)?;
    let Pairing {
        pairs: moved,
        older: gone,
        newer: added,
    } = pair_up(alloc, Likeness::Course, &left, come)?;
    Ok(Changes {
        moved,
        rooms,
        gone,
        added,
    })
}
