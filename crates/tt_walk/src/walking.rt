//! Walks by drawn steps.

ghost use Rattle.std.specs.Prelude.{◌≡◌, ◌<◌, ◌+◌, ℕ, List, length};
ghost use Rattle.tt_instance.specs.declared.cell.Cell.{Cell};
ghost use Rattle.tt_walk.specs.Improved.{courses_of, LeadsWithin};
ghost use Rattle.tt_walk.specs.Inner.Pairs.{IsBest};
ghost use Rattle.tt_walk.specs.Inner.Standings.{IsAtBest};

use crate::cell_entries::CellEntries;
use crate::cooling::Cooling;
use crate::drawing::draw;
use crate::open::Open;
use crate::span::Span;
use crate::standing::Standing;
use rand_core::SeedableRng;
use rand_pcg::Pcg32;
use std::alloc::{AllocError, Global};
use tt_moves::apply;
use tt_occupancy::Occupied;
use tt_watch::Watch;

/// The state for drawing steps.
#[derive(Drop)]
pub struct Walker {
    pub cells: CellEntries,
    pub open: Open,
    pub rng: Pcg32,
}

impl Walker {
    /// Returns a walker without a timetable.
    pub fn new(
        alloc: Global,
        occupied: &Occupied<'_, '_>,
        seed: u64,
    ) -> Result<Walker, AllocError> {
        Ok(Walker {
            cells: CellEntries::new(alloc, occupied)?,
            open: Open::new(alloc, occupied.instance())?,
            rng: Pcg32::seed_from_u64(seed),
        })
    }

    /// Begins with this timetable. No memory is allocated.
    pub fn begin(&mut self, occupied: &Occupied<'_, '_>) {
        self.cells.fill(occupied);
    }
}

/// Makes a drawn step, if one is accepted.
fn try_draw(occupied: &mut Occupied<'_, '_>, walker: &mut Walker, cooling: &mut Cooling)
    requires { 0 < length occupied.old.entries }
    ensures problem { occupied.new.problem ≡ occupied.old.problem }
    ensures courses { courses_of occupied.new.entries ≡ courses_of occupied.old.entries }
    ensures reached { (t : List Cell) (n : ℕ) → LeadsWithin occupied.old.problem t n occupied.old.entries
        → LeadsWithin occupied.old.problem t (n + 1) occupied.new.entries }
{
    if let Some(step) = draw(
        occupied,
        &walker.cells,
        &mut walker.open,
        &mut walker.rng,
        cooling,
    ) {
        walker.cells.take(occupied, step);
        apply(occupied, step);
        walker.cells.put(occupied, step);
    }
}

/// Makes drawn steps until there are enough or the search is to end, and stores the best timetable on the way. No memory is allocated.
pub fn walk<W: Watch>(
    standing: &mut Standing<'_, '_>,
    walker: &mut Walker,
    cooling: Cooling,
    draws: u64,
    span: Span,
    watch: &mut W,
)
    requires positive { 0 < length standing.old.occupied.entries }
    requires best { (t : List Cell) × (courses_of standing.old.occupied.entries ≡ courses_of t)
        × IsBest standing.old.occupied.problem t standing.old.best }
    ensures problem { standing.new.occupied.problem ≡ standing.old.occupied.problem }
    ensures courses { courses_of standing.new.occupied.entries ≡ courses_of standing.old.occupied.entries }
    ensures best { (t : List Cell) → courses_of standing.old.occupied.entries ≡ courses_of t
        → IsBest standing.old.occupied.problem t standing.old.best → IsBest standing.old.occupied.problem t standing.new.best }
    ensures reached { IsAtBest standing.old
        → LeadsWithin standing.old.occupied.problem standing.old.occupied.entries draws standing.new.best.entries.items }
{
    let mut cooling = cooling;
    for made in 0..draws {
        if span.is_over(watch, made) {
            break;
        }
        try_draw(&mut standing.occupied, walker, &mut cooling);
        standing.best.keep(&standing.occupied);
        span.show(watch, made, &standing.best);
    }
}
