//! The best timetable that a search has found.

ghost use Rattle.std.specs.Prelude.{◌≡◌, ◌⊎◌, IfOk, List};
ghost use Rattle.tt_instance.specs.declared.cell.Cell.{Cell};
ghost use Rattle.tt_walk.specs.Improved.{courses_of};
ghost use Rattle.tt_walk.specs.Inner.Pairs.{IsBest};

use crate::pair::pair_of;
use std::alloc::{AllocError, Global};
use tt_occupancy::Occupied;
use tt_table::Entry;
use tt_watch::Pair;

/// The entries of the best timetable so far, and its pair.
#[derive(Drop)]
pub struct Best {
    pub entries: Vec<Entry>,
    pub pair: Pair,
}

impl Best {
    /// Starts with the first timetable as the best one so far.
    pub fn new(alloc: Global, occupied: &Occupied<'_, '_>) -> Result<Best, AllocError>
        ensures best { IfOk result (IsBest occupied.now.problem occupied.now.entries) }
        ensures entries { IfOk result (λ b. b.entries.items ≡ occupied.now.entries) }
    {
        let entries = Vec::from_slice(alloc, occupied.table().entries())?;
        Ok(Best {
            entries,
            pair: pair_of(occupied),
        })
    }

    /// Stores a timetable if it is better. No memory is allocated.
    pub fn keep(&mut self, occupied: &Occupied<'_, '_>)
        requires { (t : List Cell) × (courses_of occupied.now.entries ≡ courses_of t)
            × IsBest occupied.now.problem t self.old }
        ensures best { (t : List Cell) → courses_of occupied.now.entries ≡ courses_of t
            → IsBest occupied.now.problem t self.old → IsBest occupied.now.problem t self.new }
        ensures either { (self.new ≡ self.old) ⊎ (self.new.entries.items ≡ occupied.now.entries) }
    {
        let pair = pair_of(occupied);
        if pair.is_below(self.pair) {
            self.entries.copy_from_slice(occupied.table().entries());
            self.pair = pair;
        }
    }
}
