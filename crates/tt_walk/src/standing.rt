//! The state of a search.

ghost use Rattle.std.specs.Prelude.{◌≡◌, IfOk};
ghost use Rattle.tt_walk.specs.Inner.Pairs.{IsBest};
ghost use Rattle.tt_walk.specs.Inner.Standings.{IsAtBest};

use crate::best::Best;
use std::alloc::{AllocError, Global};
use tt_occupancy::Occupied;

/// The timetable that a search has reached, and the best one on the way.
#[derive(Drop)]
pub struct Standing<'a, 'i> {
    pub occupied: Occupied<'a, 'i>,
    pub best: Best,
}

impl<'a, 'i> Standing<'a, 'i> {
    /// Begins at a timetable, the best one so far.
    pub fn new(alloc: Global, occupied: Occupied<'a, 'i>) -> Result<Standing<'a, 'i>, AllocError>
        ensures occupied { IfOk result (λ s. s.occupied ≡ occupied.entry) }
        ensures best { IfOk result (λ s. IsBest s.occupied.problem s.occupied.entries s.best) }
        ensures here { IfOk result IsAtBest }
    {
        Ok(Standing {
            best: Best::new(alloc, &occupied)?,
            occupied,
        })
    }
}
