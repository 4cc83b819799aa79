//! Tables of the courses and rooms that have been seen.

ghost use Rattle.std.specs.Prelude.{◌≡◌, false, IfOk};
ghost use Rattle.tt_list_laws.specs.Words.{has_number};
ghost use Rattle.tt_proof_read.specs.Faults.{ReportsNoFailedRead, Gives};
ghost use Rattle.tt_proof_read.specs.Reading.{new_number};

use crate::fault::TextFault;
use crate::seen::Seen;
use crate::sizes::Sizes;
use std::alloc::{AllocError, Global};

/// The courses and the rooms that a list has so far.
#[derive(Drop)]
pub struct Tables {
    pub courses: Seen,
    pub rooms: Seen,
}

impl Tables {
    ghost use Rattle.std.specs.Prelude.{IfOk};
    ghost use Rattle.tt_proof_read.specs.Inner.Pricing.{AreTables};

    /// Creates empty tables for an instance of these sizes.
    pub fn new(alloc: Global, sizes: Sizes) -> Result<Tables, AllocError>
        ensures { IfOk result (AreTables sizes) }
    {
        let courses = Seen::new(alloc, sizes.courses)?;
        let rooms = Seen::new(alloc, sizes.rooms)?;
        Ok(Tables { courses, rooms })
    }
}

/// Returns the number if it hasn't been seen.
pub fn new_number(seen: &Seen, number: u32, at: usize) -> Result<u32, TextFault>
    ensures read { Gives (λ n. n) result (new_number at seen.now.numbers number) }
    ensures unread { ReportsNoFailedRead result }
    ensures new { IfOk result (λ n. (n ≡ number) × (has_number seen.now.numbers n ≡ false)) }
{
    if seen.has(number) {
        return Err(TextFault::RepeatedIndex(at));
    }
    Ok(number)
}
