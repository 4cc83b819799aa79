//! Sets of places: of courses, of rooms, of days, or of periods of the week.

ghost use Rattle.std.specs.Prelude.{◌≡◌, ℕ, ◌<◌, ◌≤◌, ◌==◌, ◌||◌, false, slice_index_or, count_by};
ghost use Rattle.tt_list_laws.specs.Words.{range_below};

use std::marker::Model;

/// Places are numbered from 0, up to the maximum number of courses; rooms, days and periods have fewer.
pub const PLACES: usize = 2048;

/// Whether each place is marked.
#[derive(Drop)]
pub struct Marks {
    places: [bool; PLACES],
}

impl Model for Marks {
    ghost use Rattle.std.specs.Prelude.{List, Bool};

    ghost Value = { List Bool };

    ghost view = { λ m. m.places };
}

impl Marks {
    /// Creates marks with no place marked.
    pub fn none() -> Self
        ensures { (k : ℕ) → slice_index_or result k false ≡ false }
    {
        Marks {
            places: [false; PLACES],
        }
    }

    /// Returns whether a place is marked; false if the place is out of range.
    pub fn has(&self, place: usize) -> bool
        ensures { result ≡ slice_index_or self.now place false }
    {
        place < PLACES && self.places[place]
    }

    /// Marks a place.
    pub fn add(&mut self, place: usize)
        requires { place < PLACES }
        ensures { (k : ℕ) → slice_index_or self.new k false
            ≡ (slice_index_or self.old k false || (place == k)) }
    {
        self.places[place] = true;
    }

    /// Counts the marked places below a bound.
    #[tactic(auto, using(tt_list_laws::proofs::Numbers::count_more))]
    pub fn count(&self, bound: u32) -> u64
        requires { bound ≤ PLACES }
        ensures count { result
            ≡ count_by (λ k. slice_index_or self.now k false) (range_below bound) }
        ensures at_most { result ≤ bound }
    {
        let mut total: u64 = 0;
        for place in 0..bound {
            if self.places[place as usize] {
                total += 1;
            }
        }
        total
    }
}
