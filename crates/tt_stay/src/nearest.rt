//! The best timetable of a search near an older one.

ghost use Rattle.std.specs.Prelude.{OnOk};
ghost use Rattle.tt_stay.specs.Rearranged.{IsRearranged};

use std::alloc::AllocError;
use tt_occupancy::Occupied;
use tt_table::Timetable;

/// The best timetable so far. What the search has added to the first one's weight so far, and what the best one adds, decide only what is
/// kept.
#[derive(Drop)]
pub struct Nearest {
    pub table: Timetable,
    pub added: i64,
    pub least: i64,
}

impl Nearest {
    /// Counts what a step has added, and keeps the timetable if it is better.
    pub fn keep(&mut self, occupied: &Occupied<'_, '_>, added: i64) -> Result<(), AllocError>
        requires { IsRearranged occupied.now.problem occupied.now.entries self.old.table }
        ensures { OnOk result (IsRearranged occupied.now.problem occupied.now.entries self.new.table) }
    {
        self.added = self.added.saturating_add(added);
        if self.added < self.least {
            self.table = occupied.table().copy()?;
            self.least = self.added;
        }
        Ok(())
    }
}
