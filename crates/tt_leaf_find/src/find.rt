//! The search for a leaf that closes a node.

ghost use Rattle.std.specs.Prelude.{◌≡◌, ◌<◌, ◌↔◌, [], ◌∷◌, List, length, All, Contains, true, IsTrue, IfOk, IfSome, IsSome, IsNone, ℕ};
ghost use Rattle.tt_instance.specs.declared.cell.Cell.{Cell};
ghost use Rattle.tt_rules.specs.Score.{IsFeasible, cost};
ghost use Rattle.tt_path.specs.Facts.{IsPattern, Fits};
ghost use Rattle.tt_path.specs.declared.facts.Fact.{Fact};
ghost use Rattle.tt_leaf_rules.specs.Bounds.{Respects};
ghost use Rattle.tt_leaf_rules.specs.Leaves.{IsRight};
ghost use Rattle.tt_leaf.specs.Ranges.{IsLeafOf};
ghost use Rattle.tt_leaf.specs.declared.leaf.Leaf.TheVariants.{Empty, Many, Clique};
ghost use Rattle.tt_leaf_find.specs.Found.{IsAnswer, Closes, ArePatterns};
ghost use Rattle.tt_leaf_find.specs.Pinned.{IsPinnedDown, IsOpen};

use crate::best::{best_claims, stacked_claims};
use crate::overfull::overfull_leaf;
use crate::priced::priced_claims;
use std::alloc::{AllocError, Global};
use tt_leaf::{Bound, CourseList, Leaf};
use tt_leaf_rules::holds;
use tt_path::{Fact, Path};

/// Returns whether a leaf is right.
fn is_right<'i, P: Path<'i>>(path: &P, leaf: &Leaf, bound: Bound) -> bool
    requires { IsLeafOf (P.problem path.now) leaf.now }
    ensures { IsTrue result ↔ IsRight (P.problem path.now) (P.facts path.now) bound leaf.now }
{
    holds(path, leaf, bound).is_ok()
}

/// Returns the Empty leaf of a yes-fact if it is right.
fn right_empty<'i, P: Path<'i>>(path: &P, fact: Fact, bound: Bound) -> Option<Leaf>
    requires { IsPattern (P.problem path.now) fact.pattern }
    ensures closes { IfSome result (Closes (P.problem path.now) (P.facts path.now) bound) }
    ensures none { IsNone result → fact.holds ≡ true → ¬ IsRight (P.problem path.now) (P.facts path.now) bound (Empty fact.pattern) }
{
    if fact.holds {
        if_right(path, Leaf::Empty(fact.pattern), bound)
    } else {
        None
    }
}

/// Returns an Empty leaf of a yes-fact that is right, if one exists.
fn find_empty<'i, P: Path<'i>>(path: &P, bound: Bound) -> Option<Leaf>
    requires { ArePatterns (P.problem path.now) (P.facts path.now) }
    ensures closes { IfSome result (Closes (P.problem path.now) (P.facts path.now) bound) }
    ensures none { IsNone result → All (λ f. f.holds ≡ true → ¬ IsRight (P.problem path.now) (P.facts path.now) bound (Empty f.pattern)) (P.facts path.now) }
{
    for index in 0..path.depth() {
        if let Some(leaf) = right_empty(path, path.fact(index), bound) {
            return Some(leaf);
        }
    }
    None
}

/// Returns a Many leaf that is right, if one exists.
fn find_many<'i, P: Path<'i>>(path: &P, bound: Bound) -> Option<Leaf>
    ensures closes { IfSome result (Closes (P.problem path.now) (P.facts path.now) bound) }
    ensures none { IsNone result → (c : ℕ) → c < length (P.problem path.now).courses → ¬ IsRight (P.problem path.now) (P.facts path.now) bound (Many c) }
{
    for course in 0..path.instance().courses() {
        if let Some(leaf) = if_right(path, Leaf::Many(course), bound) {
            return Some(leaf);
        }
    }
    None
}

/// Creates a Clique leaf of one course.
fn clique_of(alloc: Global, course: u32) -> Result<Leaf, AllocError>
    ensures { IfOk result (λ leaf. leaf ≡ Clique (course ∷ [])) }
{
    let mut courses = Vec::new(alloc);
    courses.push(course)?;
    Ok(Leaf::Clique(CourseList::new(courses)))
}

/// Returns a Clique leaf of one course that is right, if one exists.
fn find_clique<'i, P: Path<'i>>(
    alloc: Global,
    path: &P,
    bound: Bound,
) -> Result<Option<Leaf>, AllocError>
    ensures closes { IfOk result (λ found. IfSome found (Closes (P.problem path.now) (P.facts path.now) bound)) }
    ensures none { IfOk result (λ found. IsNone found → (c : ℕ) → c < length (P.problem path.now).courses → ¬ IsRight (P.problem path.now) (P.facts path.now) bound (Clique (c ∷ []))) }
{
    for course in 0..path.instance().courses() {
        if let Some(leaf) = if_right(path, clique_of(alloc, course)?, bound) {
            return Ok(Some(leaf));
        }
    }
    Ok(None)
}

/// Returns the leaf if it is right.
fn if_right<'i, P: Path<'i>>(path: &P, leaf: Leaf, bound: Bound) -> Option<Leaf>
    requires { IsAnswer (P.problem path.now) leaf }
    ensures closes { IfSome result (Closes (P.problem path.now) (P.facts path.now) bound) }
    ensures none { IsNone result → ¬ IsRight (P.problem path.now) (P.facts path.now) bound leaf }
{
    if is_right(path, &leaf, bound) {
        Some(leaf)
    } else {
        None
    }
}

/// Returns the leaf that was found, if any, if it is right.
fn right_one<'i, P: Path<'i>>(path: &P, found: Option<Leaf>, bound: Bound) -> Option<Leaf>
    requires { IfSome found (IsAnswer (P.problem path.now)) }
    ensures { IfSome result (Closes (P.problem path.now) (P.facts path.now) bound) }
{
    match found {
        Some(leaf) => if_right(path, leaf, bound),
        None => None,
    }
}

/// Returns a leaf of courses that have more lectures than is open to them, if it is right. It is tried only on the empty path.
fn find_overfull<'i, P: Path<'i>>(
    alloc: Global,
    path: &P,
    bound: Bound,
) -> Result<Option<Leaf>, AllocError>
    ensures { IfOk result (λ found. IfSome found (Closes (P.problem path.now) (P.facts path.now) bound)) }
{
    if path.depth() > 0 {
        return Ok(None);
    }
    Ok(right_one(path, overfull_leaf(alloc, path.instance())?, bound))
}

/// Returns a leaf with prices over groups of courses, if it is right.
fn find_priced<'i, P: Path<'i>>(
    alloc: Global,
    path: &P,
    bound: Bound,
) -> Result<Option<Leaf>, AllocError>
    ensures { IfOk result (λ found. IfSome found (Closes (P.problem path.now) (P.facts path.now) bound)) }
{
    if bound == Bound::Nothing {
        return Ok(None);
    }
    Ok(right_one(path, priced_claims(alloc, path)?, bound))
}

/// Returns a leaf that is right on a path, if one of those that are tried is right. It tries: that the cells of some yes-fact are all
/// dead, that a course has too many pinned periods or too few live ones, on the empty path that courses have more lectures than periods, or
/// than rooms in periods, are open to them, the best claims, and the best claims with stacked days.
/// Leaves with prices over groups of courses are tried too.
/// If the path has each live cell's own pattern as a yes-fact, one of them is right for each bound that all
/// feasible timetables on the path respect.
pub fn find_leaf<'i, P: Path<'i>>(
    alloc: Global,
    path: &P,
    bound: Bound,
) -> Result<Option<Leaf>, AllocError>
    requires { ArePatterns (P.problem path.now) (P.facts path.now) }
    ensures closes { IfOk result (λ found. IfSome found (Closes (P.problem path.now) (P.facts path.now) bound)) }
    ensures none { IfOk result (λ found. IsNone found → IsOpen (P.problem path.now) (P.facts path.now) bound) }
    ensures pinned { IsPinnedDown (P.problem path.now) (P.facts path.now) →
        ((t : List Cell) → IsFeasible (P.problem path.now) t → Fits (P.problem path.now) t (P.facts path.now) → Respects bound (cost (P.problem path.now) t)) →
        IfOk result IsSome }
{
    // Brings the instance's limits into the proof.
    prove!(path.instance().days() <= 64);
    if let Some(leaf) = find_empty(path, bound) {
        return Ok(Some(leaf));
    }
    if let Some(leaf) = find_many(path, bound) {
        return Ok(Some(leaf));
    }
    if let Some(leaf) = find_clique(alloc, path, bound)? {
        return Ok(Some(leaf));
    }
    if let Some(leaf) = find_overfull(alloc, path, bound)? {
        return Ok(Some(leaf));
    }
    if let Some(leaf) = if_right(path, best_claims(alloc, path)?, bound) {
        return Ok(Some(leaf));
    }
    if let Some(leaf) = if_right(path, stacked_claims(alloc, path)?, bound) {
        return Ok(Some(leaf));
    }
    find_priced(alloc, path, bound)
}
