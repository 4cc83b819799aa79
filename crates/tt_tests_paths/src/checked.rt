//! Leaves found and checked on paths whose facts have the instance's numbers.

ghost use Rattle.std.specs.Prelude.{◌≡◌, ◌<◌, true, IfSome};
ghost use Rattle.tt_path.specs.Facts.{IsPattern, IsWho};
ghost use Rattle.tt_leaf_find.specs.Found.{ArePatterns};
ghost use Rattle.tt_leaf.specs.Ranges.{IsLeafOf};

use std::alloc::{AllocError, Global};
use tt_instance::Instance;
use tt_leaf::{Bound, Leaf};
use tt_leaf_find::find_leaf;
use tt_leaf_rules::holds;
use tt_path::{Fact, Path, Pattern, Who};

fn is_given(given: Option<u32>, count: u32) -> bool
    ensures { result ≡ true → IfSome given (λ n. n < count) }
{
    match given {
        None => true,
        Some(number) => number < count,
    }
}

fn is_there(instance: &Instance<'_>, who: Who) -> bool
    ensures { result ≡ true → IsWho instance.now who }
{
    match who {
        Who::Course(course) => course < instance.courses(),
        Who::Curriculum(curriculum) => curriculum < instance.curricula(),
    }
}

/// Checks that the numbers of a pattern are the instance's.
fn is_pattern(instance: &Instance<'_>, pattern: Pattern) -> bool
    ensures { result ≡ true → IsPattern instance.now pattern }
{
    is_there(instance, pattern.who)
        && is_given(pattern.room, instance.rooms())
        && is_given(pattern.day, instance.days())
        && is_given(pattern.period, instance.periods())
}

/// Adds a fact, if its numbers are the instance's, and returns whether it was added.
pub fn push<'i, P: Path<'i>>(path: &mut P, fact: Fact) -> bool
    requires { ArePatterns (P.problem path.old) (P.facts path.old) }
    ensures patterns { ArePatterns (P.problem path.new) (P.facts path.new) }
    ensures unchanged { P.problem path.new ≡ P.problem path.old }
{
    if !is_pattern(path.instance(), fact.pattern) {
        return false;
    }
    match path.push(fact) {
        Ok(()) => true,
        Err(_) => false,
    }
}

/// Checks whether a leaf is right by the rules.
pub fn is_right<'i, P: Path<'i>>(path: &P, leaf: &Leaf, bound: Bound) -> bool
    requires { IsLeafOf (P.problem path.now) leaf.now }
{
    holds(path, leaf, bound).is_ok()
}

/// The result of a search on a path.
#[derive(Clone, Copy, Debug, PartialEq, Eq)]
pub enum Found {
    Nothing,
    Right,
    Wrong,
}

/// Searches for a leaf on a path, and checks it on another path with the same facts.
pub fn find<'i, P: Path<'i>, Q: Path<'i>>(
    alloc: Global,
    path: &P,
    other: &Q,
    bound: Bound,
) -> Result<Found, AllocError>
    requires patterns { ArePatterns (P.problem path.now) (P.facts path.now) }
    requires same { Q.problem other.now ≡ P.problem path.now }
{
    match find_leaf(alloc, path, bound)? {
        None => Ok(Found::Nothing),
        Some(leaf) => {
            if is_right(other, &leaf, bound) {
                Ok(Found::Right)
            } else {
                Ok(Found::Wrong)
            }
        }
    }
}

/// Returns a leaf that is found after some facts, each of which has to have the instance's numbers.
pub fn leaf_after<'i, P: Path<'i>>(
    alloc: Global,
    path: &mut P,
    facts: &[Fact],
    bound: Bound,
) -> Result<Option<Leaf>, AllocError>
    requires { ArePatterns (P.problem path.old) (P.facts path.old) }
{
    for fact in facts {
        if !push(path, *fact) {
            return Err(AllocError);
        }
    }
    find_leaf(alloc, path, bound)
}
