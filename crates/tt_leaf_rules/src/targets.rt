//! The targets of claims, none of which two claims may have.

ghost use Rattle.std.specs.Prelude.{◌≡◌, ℕ, ◌*◌, ◌<◌, ◌==◌, ◌&&◌, ◌++◌, not, map, List, All};
ghost use Rattle.std.specs.List.{list_any, list_all};
ghost use Rattle.tt_leaf_rules.specs.Claims.{RoomCapacity, WorkingDays, Compactness, Stability};
ghost use Rattle.tt_leaf_rules.specs.Inner.NumberSet.{are_new, places_of, IsPlaced};
ghost use Rattle.tt_leaf_rules.specs.Inner.Nested.{claims_target, are_apart, IsOnce};
ghost use Rattle.tt_leaf_rules.specs.Tests.{claims_once};
ghost use Rattle.tt_leaf_rules.specs.declared.number_set.TheConstants.{PLACES};

use crate::number_set::{MAX_COMPARED, NumberSet};
use tt_leaf::Claim;

fn is_priced(courses: &[(u32, u32)], course: u32) -> bool
    ensures { result ≡ list_any (λ k. course == k.0) courses.now }
{
    courses.iter().any(|priced| course == priced.0)
}

fn has_capacity_target(claim: &Claim, course: u32) -> bool
    ensures { result ≡ claims_target claim.now (RoomCapacity course) }
{
    match claim {
        Claim::Capacity {
            course: claimed,
            ..
        } => course == *claimed,
        Claim::Prices { courses, .. } => is_priced(courses.as_slice(), course),
        _ => false,
    }
}

fn has_days_target(claim: &Claim, course: u32) -> bool
    ensures { result ≡ claims_target claim.now (WorkingDays course) }
{
    match claim {
        Claim::Days(claimed) | Claim::Stacked(claimed) => course == *claimed,
        _ => false,
    }
}

fn has_compactness_target(claim: &Claim, curriculum: u32) -> bool
    ensures { result ≡ claims_target claim.now (Compactness curriculum) }
{
    match claim {
        Claim::Compact(claimed) => curriculum == *claimed,
        _ => false,
    }
}

fn has_stability_target(claim: &Claim, course: u32) -> bool
    ensures { result ≡ claims_target claim.now (Stability course) }
{
    match claim {
        Claim::Stable(claimed) => course == *claimed,
        _ => false,
    }
}

fn has_no_capacity_target(claim: &Claim, courses: &[(u32, u32)]) -> bool
    ensures { result ≡ list_all (λ k. not (claims_target claim.now (RoomCapacity k.0))) courses.now }
{
    courses
        .iter()
        .all(|priced| !has_capacity_target(claim, priced.0))
}

fn are_apart(claim: &Claim, other: &Claim) -> bool
    ensures { result ≡ are_apart claim.now other.now }
{
    match claim {
        Claim::Capacity { course, .. } => !has_capacity_target(other, *course),
        Claim::Days(course) | Claim::Stacked(course) => !has_days_target(other, *course),
        Claim::Compact(curriculum) => !has_compactness_target(other, *curriculum),
        Claim::Stable(course) => !has_stability_target(other, *course),
        Claim::Prices { courses, .. } => has_no_capacity_target(other, courses.as_slice()),
    }
}

fn is_apart_from_each(claim: &Claim, others: &[Claim]) -> bool
    ensures { result ≡ list_all (are_apart claim.now) others.now }
{
    others.iter().all(|other| are_apart(claim, other))
}

fn are_pairwise_apart(claims: &[Claim]) -> bool
    requires { All IsOnce claims.now }
    ensures { result ≡ claims_once claims.now }
{
    let mut rest = claims;
    while let Some((first, others)) = rest.split_first() {
        if !is_apart_from_each(first, others) {
            return false;
        }
        rest = others;
    }
    true
}

/// Inserts the room capacity of each course in turn, up to the first that was taken already; returns whether none was.
fn insert_capacities(taken: &mut NumberSet, courses: &[(u32, u32)]) -> bool
    requires { All (λ n. n < PLACES) (map (λ k. 4 * k.0) courses.now) }
    ensures { (behind : List ℕ) → are_new taken.old (map (λ k. 4 * k.0) courses.now ++ behind) ≡ (result && are_new taken.new behind) }
{
    let mut rest = courses;
    while let Some((first, others)) = rest.split_first() {
        if !taken.insert(4 * first.0 as usize) {
            return false;
        }
        rest = others;
    }
    true
}

/// Inserts the targets of a claim in turn, up to the first that was taken already; returns whether none was.
fn insert_targets(taken: &mut NumberSet, claim: &Claim) -> bool
    requires { IsPlaced claim.now }
    ensures { (behind : List ℕ) → are_new taken.old (places_of claim.now ++ behind) ≡ (result && are_new taken.new behind) }
{
    match claim {
        Claim::Capacity { course, .. } => taken.insert(4 * *course as usize),
        Claim::Days(course) | Claim::Stacked(course) => taken.insert(4 * *course as usize + 1),
        Claim::Compact(curriculum) => taken.insert(4 * *curriculum as usize + 2),
        Claim::Stable(course) => taken.insert(4 * *course as usize + 3),
        Claim::Prices { courses, .. } => insert_capacities(taken, courses.as_slice()),
    }
}

/// Returns whether no target is claimed twice, by marks, without comparing each two targets. Not inlined, since its marks are on the stack.
#[inline(never)]
fn are_new(claims: &[Claim]) -> bool
    requires { All IsPlaced claims.now }
    ensures { result ≡ claims_once claims.now }
{
    let mut taken = NumberSet::none();
    let mut rest = claims;
    while let Some((first, others)) = rest.split_first() {
        if !insert_targets(&mut taken, first) {
            return false;
        }
        rest = others;
    }
    true
}

/// Returns whether the claims have so few targets that comparing each two is fast.
fn are_few(claims: &[Claim]) -> bool {
    claims.len() <= 1
        || claims.len() <= MAX_COMPARED
            && claims
                .iter()
                .all(|claim| !matches!(claim, Claim::Prices { .. }))
}

/// Returns whether no target is claimed twice.
pub fn are_claimed_once(claims: &[Claim]) -> bool
    requires once { All IsOnce claims.now }
    requires placed { All IsPlaced claims.now }
    ensures { result ≡ claims_once claims.now }
{
    if are_few(claims) {
        are_pairwise_apart(claims)
    } else {
        are_new(claims)
    }
}
