//! The leaf of the claims of positive value.

ghost use Rattle.std.specs.Prelude.{◌≡◌, ◌<◌, [], ◌∷◌, ◌++◌, length, map, All, IfOk, OnOk};
ghost use Rattle.tt_instance.specs.Problem.{Problem};
ghost use Rattle.tt_instance.specs.Cells.{all_courses, all_curricula};
ghost use Rattle.tt_leaf.specs.Ranges.{IsClaimOf};
ghost use Rattle.tt_leaf.specs.declared.leaf.Claim.TheVariants.{Compact, Stable};
ghost use Rattle.tt_leaf.specs.declared.leaf.Leaf.TheVariants.{Cost};
ghost use Rattle.tt_leaf_find.specs.Best.{days_of, capacity_claims, worth, claims_with, best_leaf, stacked_leaf};
ghost use Rattle.tt_leaf_find.specs.Found.{IsAnswer, IsFitClaim};

use crate::prices::{has_seats, price_of};
use std::alloc::{AllocError, Global};
use tt_leaf::{Claim, ClaimList, Leaf};
use tt_leaf_rules::claim_value;
use tt_path::Path;

/// Adds a claim if its value is positive.
pub fn push_if_worth<'i, P: Path<'i>>(
    path: &P,
    claims: &mut Vec<Claim>,
    claim: Claim,
) -> Result<(), AllocError>
    requires { IsClaimOf (P.problem path.now) claim }
    ensures worth { OnOk result (claims.new.items ≡ claims.old.items ++ worth (P.problem path.now) (P.facts path.now) (claim ∷ [])) }
    ensures fit { OnOk result (IsFitClaim (P.problem path.now) claim → All (IsFitClaim (P.problem path.now)) claims.old.items → All (IsFitClaim (P.problem path.now)) claims.new.items) }
{
    if claim_value(path, &claim) > 0 {
        claims.push(claim)?;
    }
    Ok(())
}

/// Adds the claim on the seats of a course if its value is positive.
pub fn push_capacity_of<'i, P: Path<'i>>(
    alloc: Global,
    path: &P,
    claims: &mut Vec<Claim>,
    course: u32,
) -> Result<(), AllocError>
    requires { course < length (P.problem path.now).courses }
    ensures worth { OnOk result (claims.new.items ≡ claims.old.items ++ worth (P.problem path.now) (P.facts path.now) (capacity_claims (P.problem path.now) (P.facts path.now) (course ∷ []))) }
    ensures fit { OnOk result (All (IsFitClaim (P.problem path.now)) claims.old.items → All (IsFitClaim (P.problem path.now)) claims.new.items) }
{
    if has_seats(path, course) {
        return Ok(());
    }
    if let Some(price) = price_of(alloc, path, course)? {
        push_if_worth(path, claims, Claim::Capacity { course, price })?;
    }
    Ok(())
}

fn push_capacity<'i, P: Path<'i>>(
    alloc: Global,
    path: &P,
    claims: &mut Vec<Claim>,
) -> Result<(), AllocError>
    ensures { OnOk result (claims.new.items ≡ claims.old.items ++ worth (P.problem path.now) (P.facts path.now) (capacity_claims (P.problem path.now) (P.facts path.now) (all_courses (P.problem path.now)))) }
{
    for course in 0..path.instance().courses() {
        push_capacity_of(alloc, path, claims, course)?;
    }
    Ok(())
}

/// Creates the claim on the days of a course: on those that its pinned periods share if it is stacked, otherwise on its live days.
fn days_claim(course: u32, stacked: bool) -> Claim
    ensures value { result ≡ days_of stacked course }
    ensures within { (p : Problem) → course < length p.courses → IsClaimOf p result }
{
    if stacked {
        Claim::Stacked(course)
    } else {
        Claim::Days(course)
    }
}

fn push_days<'i, P: Path<'i>>(
    path: &P,
    claims: &mut Vec<Claim>,
    stacked: bool,
) -> Result<(), AllocError>
    ensures { OnOk result (claims.new.items ≡ claims.old.items ++ worth (P.problem path.now) (P.facts path.now) (map (days_of stacked) (all_courses (P.problem path.now)))) }
{
    for course in 0..path.instance().courses() {
        push_if_worth(path, claims, days_claim(course, stacked))?;
    }
    Ok(())
}

/// Adds the claims of compactness of positive value.
pub fn push_compact<'i, P: Path<'i>>(path: &P, claims: &mut Vec<Claim>) -> Result<(), AllocError>
    ensures { OnOk result (claims.new.items ≡ claims.old.items ++ worth (P.problem path.now) (P.facts path.now) (map Compact (all_curricula (P.problem path.now)))) }
{
    for curriculum in 0..path.instance().curricula() {
        push_if_worth(path, claims, Claim::Compact(curriculum))?;
    }
    Ok(())
}

fn push_stable<'i, P: Path<'i>>(path: &P, claims: &mut Vec<Claim>) -> Result<(), AllocError>
    ensures { OnOk result (claims.new.items ≡ claims.old.items ++ worth (P.problem path.now) (P.facts path.now) (map Stable (all_courses (P.problem path.now)))) }
{
    for course in 0..path.instance().courses() {
        push_if_worth(path, claims, Claim::Stable(course))?;
    }
    Ok(())
}

/// Returns the claims of positive value, kind by kind.
fn leaf_of<'i, P: Path<'i>>(alloc: Global, path: &P, stacked: bool) -> Result<Leaf, AllocError>
    ensures leaf { IfOk result (λ leaf. leaf ≡ Cost (claims_with (days_of stacked) (P.problem path.now) (P.facts path.now))) }
    ensures answer { IfOk result (IsAnswer (P.problem path.now)) }
{
    // Brings the instance's limits into the proof.
    prove!(path.instance().days() <= 64);
    let mut claims = Vec::new(alloc);
    push_capacity(alloc, path, &mut claims)?;
    push_days(path, &mut claims, stacked)?;
    push_compact(path, &mut claims)?;
    push_stable(path, &mut claims)?;
    Ok(Leaf::Cost(ClaimList::new(claims)))
}

/// Returns the claims of seats, working days, isolated entries and rooms that have a positive value on a path,
/// kind by kind. The price of a course's capacity claim is the l-th smallest of the least excesses of its live periods,
/// with l the number of its lectures, or the greatest if there are fewer than l.
pub fn best_claims<'i, P: Path<'i>>(alloc: Global, path: &P) -> Result<Leaf, AllocError>
    ensures leaf { IfOk result (λ leaf. leaf ≡ best_leaf (P.problem path.now) (P.facts path.now)) }
    ensures answer { IfOk result (IsAnswer (P.problem path.now)) }
{
    leaf_of(alloc, path, false)
}

/// Returns the claims like `best_claims`, but with claims on the days that pinned periods share instead of those on live days.
pub fn stacked_claims<'i, P: Path<'i>>(alloc: Global, path: &P) -> Result<Leaf, AllocError>
    ensures leaf { IfOk result (λ leaf. leaf ≡ stacked_leaf (P.problem path.now) (P.facts path.now)) }
    ensures answer { IfOk result (IsAnswer (P.problem path.now)) }
{
    leaf_of(alloc, path, true)
}
