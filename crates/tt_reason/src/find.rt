//! Plain reasons why an instance has no feasible timetable.

ghost use Rattle.std.specs.Prelude.{[], IfOk, IfSome};
ghost use Rattle.tt_leaf.specs.declared.leaf.Bound.TheVariants.{Nothing};
ghost use Rattle.tt_leaf_find.specs.Found.{Closes};

use std::alloc::{AllocError, Global};
use tt_instance::Instance;
use tt_leaf::{Bound, Leaf};
use tt_leaf_find::find_leaf;
use tt_path_trail::TrailPath;

/// Returns a leaf by which no feasible timetable exists, if one of those that are tried on the path without facts is right: a Clique or Slots
/// leaf of courses that have too few periods or rooms.
pub fn find_reason(alloc: Global, instance: &Instance<'_>) -> Result<Option<Leaf>, AllocError>
    ensures { IfOk result (λ found. IfSome found (Closes instance.now [] Nothing)) }
{
    let path = TrailPath::new(alloc, instance)?;
    find_leaf(alloc, &path, Bound::Nothing)
}
