//! Courses that have more lectures than the week has periods or rooms for them. Nothing is proved about the choice.

ghost use Rattle.std.specs.Prelude.{length, IfOk, IfSome};
ghost use Rattle.tt_leaf_find.specs.Found.{IsAnswer};
ghost use Rattle.tt_shortage.specs.Numbers.{AreNumbers};

use std::alloc::{AllocError, Global};
use tt_instance::Instance;
use tt_leaf::{CourseList, Leaf};
use tt_shortage::{Contested, Shortage, find_shortage};

/// Creates the leaf that says that the lectures of some courses are too many.
fn leaf_of(instance: &Instance<'_>, contested: Contested, numbers: Vec<u32>) -> Leaf
    requires { AreNumbers (length instance.now.courses) numbers.items }
    ensures { IsAnswer instance.now result }
{
    match contested {
        Contested::Periods => Leaf::Clique(CourseList::new(numbers)),
        Contested::Places => Leaf::Slots(CourseList::new(numbers)),
    }
}

/// Returns the leaf of a shortage, if one was found.
fn found_leaf(instance: &Instance<'_>, found: Option<Shortage>) -> Option<Leaf>
    requires { IfSome found (λ s. AreNumbers (length instance.now.courses) s.courses.items) }
    ensures { IfSome result (IsAnswer instance.now) }
{
    match found {
        Some(shortage) => Some(leaf_of(instance, shortage.contested, shortage.courses)),
        None => None,
    }
}

/// Returns a leaf that no timetable passes on the empty path: of the shortage that is found, if there is one, of courses any two of which
/// conflict, or of courses that need the same rooms.
pub fn overfull_leaf(alloc: Global, instance: &Instance<'_>) -> Result<Option<Leaf>, AllocError>
    ensures { IfOk result (λ found. IfSome found (IsAnswer instance.now)) }
{
    Ok(found_leaf(instance, find_shortage(alloc, instance)?))
}
