//! Sets of the numbers of targets.

ghost use Rattle.std.specs.Prelude.{◌≡◌, ℕ, ◌<◌, ◌==◌, ◌||◌, ◌&&◌, ◌∷◌, not, false, List, slice_index_or};
ghost use Rattle.tt_leaf_rules.specs.Inner.NumberSet.{marked, are_new};

use std::marker::Model;

/// The number of a target is below this: a curriculum and a course have four numbers each.
pub const PLACES: usize = 32_768;

/// Up to this many numbers, comparing each two is faster than clearing the marks.
pub const MAX_COMPARED: usize = 32;

/// A set of numbers, with a mark for each number.
#[derive(Drop)]
pub struct NumberSet {
    marks: [bool; PLACES],
}

impl Model for NumberSet {
    ghost use Rattle.std.specs.Prelude.{List, Bool};

    ghost Value = { List Bool };

    ghost view = { λ m. m.marks };
}

impl NumberSet {
    /// Creates an empty set.
    pub fn none() -> Self
        ensures { (k : ℕ) → marked result k ≡ false }
    {
        NumberSet {
            marks: [false; PLACES],
        }
    }

    fn has(&self, number: usize) -> bool
        requires { number < PLACES }
        ensures { result ≡ marked self.now number }
    {
        self.marks[number]
    }

    fn add(&mut self, number: usize)
        requires { number < PLACES }
        ensures { (k : ℕ) → marked self.new k ≡ (marked self.old k || (number == k)) }
    {
        self.marks[number] = true;
    }

    /// Inserts a number, and returns whether it is new.
    pub fn insert(&mut self, number: usize) -> bool
        requires { number < PLACES }
        ensures { (behind : List ℕ) → are_new self.old (number ∷ behind) ≡ (result && are_new self.new behind) }
    {
        let is_new = !self.has(number);
        self.add(number);
        is_new
    }
}
