//! The spare of a slot.

ghost use Rattle.std.specs.Prelude.{◌≡◌, ◌+◌, ◌-◌, ◌^◌, ◌<◌, ◌≤◌, ◌↔◌, ℕ, IsTrue, nat_le, length, slice_index, IfOk, if◌then◌else◌};
ghost use Rattle.tt_plans_slots.specs.Inner.Spares.{IsFull};

use std::alloc::{AllocError, Global};
use std::marker::Model;

/// How many more lectures of courses of at most each level a slot may take.
#[derive(Drop)]
pub struct Spare {
    levels: Vec<u32>,
}

impl Model for Spare {
    ghost use Rattle.std.specs.Prelude.{ℕ, List};

    ghost Value = { List ℕ };

    ghost view = { λ a. a.levels.items };
}

impl Spare {
    /// Returns the spare of a slot in which nothing is taught. Fails if memory runs out.
    pub fn new(alloc: Global, rooms: u32) -> Result<Spare, AllocError>
        ensures { IfOk result (IsFull rooms) }
    {
        let mut levels = Vec::new(alloc);
        for level in 0..rooms {
            levels.push(level + 1)?;
        }
        Ok(Spare { levels })
    }

    /// Sets the spare to that of a slot in which nothing is taught.
    pub fn refill(&mut self)
        requires { length self.old < 2 ^ 32 }
        ensures { IsFull (length self.old) self.new }
    {
        for level in 0..self.levels.len() {
            self.levels[level] = level as u32 + 1;
        }
    }

    /// Checks that there is spare at each level from one on.
    pub fn is_left_from(&self, level: usize) -> bool
        ensures { IsTrue result ↔ ((k : ℕ) → level ≤ k → k < length self.now → 0 < slice_index self.now k) }
    {
        for place in level..self.levels.len() {
            if self.levels[place] == 0 {
                return false;
            }
        }
        true
    }

    /// Takes one at each level from one on, where there is spare.
    pub fn take_from(&mut self, level: usize)
        ensures len { length self.new ≡ length self.old }
        ensures each { (k : ℕ) → slice_index self.new k ≡ slice_index self.old k - (if nat_le level k then 1 else 0) }
    {
        for place in level..self.levels.len() {
            self.levels[place] = self.levels[place].saturating_sub(1);
        }
    }

    /// Gives one back at each level from one on.
    pub fn give_from(&mut self, level: usize)
        requires { (k : ℕ) → k < length self.old → slice_index self.old k + 1 < 2 ^ 32 }
        ensures len { length self.new ≡ length self.old }
        ensures each { (k : ℕ) → k < length self.old → slice_index self.new k ≡ slice_index self.old k + (if nat_le level k then 1 else 0) }
    {
        for place in level..self.levels.len() {
            self.levels[place] += 1;
        }
    }

    /// Returns the spare at each level.
    pub fn as_slice(&self) -> &[u32]
        ensures { result.now ≡ self.now }
    {
        self.levels.as_slice()
    }
}
