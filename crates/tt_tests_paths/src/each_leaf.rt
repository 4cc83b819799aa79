//! The leaves that `find_leaf` lists, each checked by itself.

ghost use Rattle.std.specs.Prelude.{◌<◌, length, All, IfOk, OnOk};
ghost use Rattle.tt_leaf_find.specs.Found.{ArePatterns};
ghost use Rattle.tt_leaf.specs.Ranges.{IsClaimOf, IsLeafOf};

use crate::checked::is_right;
use std::alloc::{AllocError, Global};
use tt_leaf::{Bound, Claim, ClaimList, CourseList, Leaf};
use tt_leaf_find::best_claims;
use tt_leaf_rules::claim_value;
use tt_path::Path;

/// Checks whether the Empty leaf of some yes-fact is right.
fn is_empty_right<'i, P: Path<'i>>(path: &P, bound: Bound) -> bool
    requires { ArePatterns (P.problem path.now) (P.facts path.now) }
{
    for index in 0..path.depth() {
        let fact = path.fact(index);
        if fact.holds && is_right(path, &Leaf::Empty(fact.pattern), bound) {
            return true;
        }
    }
    false
}

fn is_clique<'i, P: Path<'i>>(
    alloc: Global,
    path: &P,
    course: u32,
    bound: Bound,
) -> Result<bool, AllocError>
    requires { course < length (P.problem path.now).courses }
{
    let mut courses = Vec::new(alloc);
    courses.push(course)?;
    Ok(is_right(path, &Leaf::Clique(CourseList::new(courses)), bound))
}

fn is_closed_by_course<'i, P: Path<'i>>(
    alloc: Global,
    path: &P,
    course: u32,
    bound: Bound,
) -> Result<bool, AllocError>
    requires { course < length (P.problem path.now).courses }
{
    Ok(is_right(path, &Leaf::Many(course), bound) || is_clique(alloc, path, course, bound)?)
}

/// Checks whether a Many or a Clique of one course is right.
fn is_course_right<'i, P: Path<'i>>(
    alloc: Global,
    path: &P,
    bound: Bound,
) -> Result<bool, AllocError> {
    for course in 0..path.instance().courses() {
        if is_closed_by_course(alloc, path, course, bound)? {
            return Ok(true);
        }
    }
    Ok(false)
}

/// Adds a claim, unless it is a claim of working days.
fn add_but_days<'i, P: Path<'i>>(
    path: &P,
    claims: &mut Vec<Claim>,
    claim: &Claim,
) -> Result<(), AllocError>
    requires claim { IsClaimOf (P.problem path.now) claim.now }
    requires all { All (IsClaimOf (P.problem path.now)) claims.old.items }
    ensures { OnOk result (All (IsClaimOf (P.problem path.now)) claims.new.items) }
{
    match claim {
        Claim::Capacity { course, price } => claims.push(Claim::Capacity {
            course: *course,
            price: *price,
        })?,
        Claim::Compact(curriculum) => claims.push(Claim::Compact(*curriculum))?,
        Claim::Stable(course) => claims.push(Claim::Stable(*course))?,
        _ => {}
    }
    Ok(())
}

/// Returns the claims without those of working days.
fn but_days<'i, P: Path<'i>>(
    alloc: Global,
    path: &P,
    all: &[Claim],
) -> Result<Vec<Claim>, AllocError>
    requires { All (IsClaimOf (P.problem path.now)) all.now }
    ensures { IfOk result (λ claims. All (IsClaimOf (P.problem path.now)) claims.items) }
{
    let mut kept = Vec::new(alloc);
    for claim in all {
        add_but_days(path, &mut kept, claim)?;
    }
    Ok(kept)
}

/// Adds a claim of stacked days, if its value is above 0.
fn add_stacked<'i, P: Path<'i>>(
    path: &P,
    claims: &mut Vec<Claim>,
    course: u32,
) -> Result<(), AllocError>
    requires course { course < length (P.problem path.now).courses }
    requires all { All (IsClaimOf (P.problem path.now)) claims.old.items }
    ensures { OnOk result (All (IsClaimOf (P.problem path.now)) claims.new.items) }
{
    let claim = Claim::Stacked(course);
    if claim_value(path, &claim) > 0 {
        claims.push(claim)?;
    }
    Ok(())
}

/// Returns the best claims, with stacked days instead of working days.
fn stacked_claims<'i, P: Path<'i>>(alloc: Global, path: &P) -> Result<Leaf, AllocError>
    ensures { IfOk result (IsLeafOf (P.problem path.now)) }
{
    let best = best_claims(alloc, path)?;
    let mut claims = match &best {
        Leaf::Cost(claims) => but_days(alloc, path, claims.as_slice())?,
        _ => Vec::new(alloc),
    };
    for course in 0..path.instance().courses() {
        add_stacked(path, &mut claims, course)?;
    }
    Ok(Leaf::Cost(ClaimList::new(claims)))
}

/// Checks whether the leaf of the best claims is right, or the leaf with stacked days.
fn is_cost_right<'i, P: Path<'i>>(
    alloc: Global,
    path: &P,
    bound: Bound,
) -> Result<bool, AllocError> {
    let best = best_claims(alloc, path)?;
    let stacked = stacked_claims(alloc, path)?;
    Ok(is_right(path, &best, bound) || is_right(path, &stacked, bound))
}

/// Checks whether one of the leaves that `find_leaf` lists is right: the Empty of a yes-fact, a Many, a Clique of one course,
/// the best claims, and these with stacked days.
pub fn is_closed<'i, P: Path<'i>>(alloc: Global, path: &P, bound: Bound) -> Result<bool, AllocError>
    requires { ArePatterns (P.problem path.now) (P.facts path.now) }
{
    Ok(
        is_empty_right(path, bound)
            || is_course_right(alloc, path, bound)?
            || is_cost_right(alloc, path, bound)?,
    )
}
