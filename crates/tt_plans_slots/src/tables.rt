//! Tables with a row for each slot.

ghost use Rattle.std.specs.Prelude.{◌≡◌, ◌^◌, ◌<◌, ℕ, [], length, slice_index_or, IfOk};
ghost use Rattle.tt_plans_slots.specs.Inner.Spares.{AreEmpty, AreFull};

use crate::course_set::CourseSet;
use crate::spare::Spare;
use std::alloc::{AllocError, Global};

/// Returns a set of no courses for each slot. Fails if memory runs out.
pub fn empty_sets(alloc: Global, slots: usize, courses: usize) -> Result<Vec<CourseSet>, AllocError>
    ensures { IfOk result (λ v. AreEmpty slots courses v.items) }
{
    let mut sets = Vec::new(alloc);
    for _slot in 0..slots {
        sets.push(CourseSet::new(alloc, courses)?)?;
    }
    Ok(sets)
}

/// Returns the spare of slots in which nothing is taught. Fails if memory runs out.
pub fn full_spares(alloc: Global, slots: usize, rooms: u32) -> Result<Vec<Spare>, AllocError>
    ensures { IfOk result (λ v. AreFull slots rooms v.items) }
{
    let mut spares = Vec::new(alloc);
    for _slot in 0..slots {
        spares.push(Spare::new(alloc, rooms)?)?;
    }
    Ok(spares)
}

/// Removes the courses from all sets.
pub fn clear_sets(sets: &mut Vec<CourseSet>, courses: usize)
    requires { (s : ℕ) → s < length sets.old.items → length (slice_index_or sets.old.items s []) ≡ courses }
    ensures { AreEmpty (length sets.old.items) courses sets.new.items }
{
    for slot in 0..sets.len() {
        let set = &mut sets[slot];
        set.clear();
    }
}

/// Sets the spare of all slots to that of slots in which nothing is taught.
pub fn refill_spares(spares: &mut Vec<Spare>, rooms: u32)
    requires { (s : ℕ) → s < length spares.old.items → length (slice_index_or spares.old.items s []) ≡ rooms }
    ensures { AreFull (length spares.old.items) rooms spares.new.items }
{
    for slot in 0..spares.len() {
        let spare = &mut spares[slot];
        spare.refill();
    }
}
