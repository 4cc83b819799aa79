//! The return to an earlier timetable.

ghost use Rattle.std.specs.Prelude.{◌≡◌};
ghost use Rattle.tt_table.specs.Table.{IsTimetable};
ghost use Rattle.tt_walk.specs.Improved.{courses_of};

use tt_occupancy::Occupied;
use tt_table::Entry;
use tt_walk::Standing;

/// Moves each entry to its old place. No memory is allocated.
pub fn restore(occupied: &mut Occupied<'_, '_>, entries: &[Entry])
    requires in_range { IsTimetable occupied.old.problem entries.now }
    requires courses { courses_of occupied.old.entries ≡ courses_of entries.now }
    ensures { occupied.new ≡ record { problem = occupied.old.problem; entries = entries.now } }
{
    let size = occupied.table().len() as u32;
    for index in 0..size {
        let entry = entries[index as usize];
        occupied.move_entry(index, entry.room, entry.day, entry.period);
    }
}

/// Returns to the best timetable so far. No memory is allocated.
pub fn return_to_best(standing: &mut Standing<'_, '_>)
    requires in_range { IsTimetable standing.old.occupied.problem standing.old.best.entries.items }
    requires courses { courses_of standing.old.occupied.entries ≡ courses_of standing.old.best.entries.items }
    ensures { standing.new ≡ record {
      occupied = record { problem = standing.old.occupied.problem; entries = standing.old.best.entries.items };
      best = standing.old.best;
    } }
{
    restore(&mut standing.occupied, &standing.best.entries);
}
