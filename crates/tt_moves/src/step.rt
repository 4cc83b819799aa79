//! Steps from one timetable to the next.

ghost use Rattle.std.specs.Prelude.{◌≡◌, ◌<◌, ◌↔◌, length, IsTrue};
ghost use Rattle.tt_table.specs.Table.{IsTimetable};
ghost use Rattle.tt_moves.specs.Steps.{CanStep, entry_at, stepped};

use tt_occupancy::Occupied;
use tt_table::Entry;

/// A change of one entry, or of two. Entries are numbered from 0 in the order of the list.
#[derive(Clone, Copy, Debug, PartialEq, Eq)]
pub enum Step {
    /// Changes the room and period of an entry.
    Move {
        entry: u32,
        room: u32,
        day: u32,
        period: u32,
    },
    /// Exchanges room and period of two entries.
    Swap {
        first: u32,
        second: u32,
    },
}

/// Checks whether a step can be made: its numbers are an entry's, a room's and a period's.
pub fn can_step(occupied: &Occupied<'_, '_>, step: Step) -> bool
    ensures { IsTrue result ↔ CanStep occupied.now.problem occupied.now.entries step }
{
    let instance = occupied.instance();
    let entries = occupied.table().len();
    match step {
        Step::Move {
            entry,
            room,
            day,
            period,
        } => {
            (entry as usize) < entries
                && room < instance.rooms()
                && day < instance.days()
                && period < instance.periods()
        }
        Step::Swap { first, second } => (first as usize) < entries && (second as usize) < entries,
    }
}

/// Makes a step, and returns the step that undoes it.
pub fn apply(occupied: &mut Occupied<'_, '_>, step: Step) -> Step
    requires { CanStep occupied.old.problem occupied.old.entries step }
    ensures stepped { occupied.new ≡ record {
      problem = occupied.old.problem;
      entries = stepped occupied.old.entries step;
    } }
    ensures possible { CanStep occupied.old.problem (stepped occupied.old.entries step) result }
    ensures back { stepped (stepped occupied.old.entries step) result ≡ occupied.old.entries }
{
    match step {
        Step::Move {
            entry,
            room,
            day,
            period,
        } => {
            let from = occupied.entry(entry);
            occupied.move_entry(entry, room, day, period);
            Step::Move {
                entry,
                room: from.room,
                day: from.day,
                period: from.period,
            }
        }
        Step::Swap { first, second } => {
            occupied.swap_entries(first, second);
            step
        }
    }
}

/// Makes the step that `apply` returned.
pub fn undo(occupied: &mut Occupied<'_, '_>, step: Step)
    requires { CanStep occupied.old.problem occupied.old.entries step }
    ensures { occupied.new ≡ record {
      problem = occupied.old.problem;
      entries = stepped occupied.old.entries step;
    } }
{
    apply(occupied, step);
}
