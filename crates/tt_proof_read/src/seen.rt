//! Numbers that have been seen.

ghost use Rattle.std.specs.Prelude.{◌≡◌, ◌<◌, ◌&&◌, ◌∷◌, ◌++◌, ℕ, not, false, [], length, slice_index_or, IfOk, OnOk, OnErr, All};
ghost use Rattle.tt_list_laws.specs.Words.{has_number};

use std::alloc::{AllocError, Global};
use std::marker::Model;

/// Numbers below a count, in the order in which they were added, and a table of them.
#[derive(Drop)]
pub struct Seen {
    numbers: Vec<u32>,
    marks: Vec<bool>,
}

impl Model for Seen {
    ghost use Rattle.std.specs.Prelude.{length};
    ghost use Rattle.tt_proof_read.specs.Inner.Listed.{Listed, AreMarked};

    ghost Value = { Listed };

    ghost view = { λ a. record { count = length a.marks.items; numbers = a.numbers.items } };

    ghost invariant = { λ a. AreMarked a.marks.items a.numbers.items };
}

/// Removes the marks of numbers.
fn unmark(marks: &mut [bool], numbers: &[u32])
    requires { All (λ n. n < length marks.old) numbers.now }
    ensures { (k : ℕ) → slice_index_or marks.new k false ≡ (slice_index_or marks.old k false && not (has_number numbers.now k)) }
{
    for number in numbers {
        marks[*number as usize] = false;
    }
}

impl Seen {
    /// Creates a table for the numbers below the count, without any number.
    pub fn new(alloc: Global, count: u32) -> Result<Seen, AllocError>
        ensures { IfOk result (λ s. s ≡ record { count = count; numbers = [] }) }
    {
        let marks = Vec::from_elem(alloc, false, count as usize)?;
        Ok(Seen {
            numbers: Vec::new(alloc),
            marks,
        })
    }

    /// Returns whether a number has been seen.
    #[inline(always)]
    pub fn has(&self, number: u32) -> bool
        ensures { result ≡ has_number self.now.numbers number }
    {
        self.marks.get(number as usize).copied().unwrap_or(false)
    }

    /// Adds a number.
    #[inline(always)]
    pub fn add(&mut self, number: u32) -> Result<(), AllocError>
        requires { number < self.old.count }
        ensures ok { OnOk result (self.new ≡ record self.old { numbers = self.old.numbers ++ number ∷ [] }) }
        ensures err { OnErr result (self.new ≡ self.old) }
    {
        self.numbers.push(number)?;
        self.marks[number as usize] = true;
        Ok(())
    }

    /// Removes all numbers.
    pub fn clear(&mut self)
        ensures { self.new ≡ record self.old { numbers = [] } }
    {
        unmark(&mut self.marks, &self.numbers);
        self.numbers.clear();
    }

    /// Copies the numbers into a new vector, in order.
    pub fn to_vec(&self, alloc: Global) -> Result<Vec<u32>, AllocError>
        ensures { IfOk result (λ v. v.items ≡ self.now.numbers) }
    {
        let mut numbers = Vec::new(alloc);
        numbers.extend_from_slice(&self.numbers)?;
        Ok(numbers)
    }
}
