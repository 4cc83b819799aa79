//! The entry in each cell. Nothing is proved about the contents.

use std::alloc::{AllocError, Global};
use tt_instance::{Instance, Slot};
use tt_moves::Step;
use tt_occupancy::Occupied;

/// The value of an empty cell.
const NOBODY: u32 = u32::MAX;

/// The entry in each room and period. If several are in one cell, it has the one that was added last.
#[derive(Drop)]
pub struct CellEntries {
    days: usize,
    periods: usize,
    entries: Vec<u32>,
}

/// Returns the entries that a step moves.
fn moved_by(step: Step) -> [u32; 2] {
    match step {
        Step::Move { entry, .. } => [entry, entry],
        Step::Swap { first, second } => [first, second],
    }
}

impl CellEntries {
    /// Returns the cells of an instance, all empty.
    pub fn new(alloc: Global, occupied: &Occupied<'_, '_>) -> Result<CellEntries, AllocError> {
        let instance = occupied.instance();
        let (rooms, days, periods) = (
            instance.rooms() as usize,
            instance.days() as usize,
            instance.periods() as usize,
        );
        Ok(CellEntries {
            days,
            periods,
            entries: vec![in alloc; NOBODY; rooms * days * periods]?,
        })
    }

    fn index(&self, room: u32, slot: Slot) -> usize {
        (room as usize)
            .wrapping_mul(self.days)
            .wrapping_add(slot.day as usize)
            .wrapping_mul(self.periods)
            .wrapping_add(slot.period as usize)
    }

    /// Returns the entry in a cell, if one is known.
    pub fn entry_in(&self, room: u32, slot: Slot) -> Option<u32> {
        let index = self.index(room, slot);
        self.entries
            .get(index)
            .copied()
            .filter(|entry| *entry != NOBODY)
    }

    /// Writes a value to the cell of an entry.
    fn write(&mut self, occupied: &Occupied<'_, '_>, entry: u32, who: u32) {
        let Some(place) = occupied.table().entries().get(entry as usize).copied() else {
            return;
        };
        let slot = Slot {
            day: place.day,
            period: place.period,
        };
        let index = self.index(place.room, slot);
        if let Some(cell) = self.entries.get_mut(index) {
            *cell = who;
        }
    }

    /// Writes every entry to its cell, and empties the other cells.
    pub fn fill(&mut self, occupied: &Occupied<'_, '_>) {
        self.entries.fill(NOBODY);
        for entry in 0..occupied.table().len() {
            self.write(occupied, entry as u32, entry as u32);
        }
    }

    /// Empties the cells of a step's entries.
    pub fn take(&mut self, occupied: &Occupied<'_, '_>, step: Step) {
        for entry in moved_by(step) {
            self.write(occupied, entry, NOBODY);
        }
    }

    /// Writes the entries of a step to their cells.
    pub fn put(&mut self, occupied: &Occupied<'_, '_>, step: Step) {
        for entry in moved_by(step) {
            self.write(occupied, entry, entry);
        }
    }
}
