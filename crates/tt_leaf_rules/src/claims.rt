//! The values of claims.

ghost use Rattle.std.specs.Prelude.{◌≡◌, ◌≤◌, ◌*◌, ◌-◌, ◌^◌, min, nat_le, length, All};
ghost use Rattle.std.specs.List.{list_all};
ghost use Rattle.tt_leaf_rules.specs.Claims.{targets_of, is_fair, value_of, claimed, total_of};
ghost use Rattle.tt_leaf.specs.Ranges.{IsClaimOf};
ghost use Rattle.tt_leaf_rules.specs.declared.limit.TheConstants.{MAX_TARGET_VALUE};

use crate::capacity::capacity_value;
use crate::days::{days_value, stacked_value};
use crate::isolated::compact_value;
use crate::prices::{are_covered, prices_value};
use crate::stable::stable_value;
use tt_leaf::Claim;
use tt_path::Path;

/// Returns the value of a claim on a path, in cost points.
#[tactic(auto, using(crate::proofs::Sizes::prices_below))]
#[inline(always)]
pub fn claim_value<'i, P: Path<'i>>(path: &P, claim: &Claim) -> u64
    requires { IsClaimOf (P.problem path.now) claim.now }
    ensures value { result ≡ value_of (P.problem path.now) (P.facts path.now) claim.now }
    ensures within { result ≤ length (targets_of claim.now) * MAX_TARGET_VALUE }
{
    match claim {
        Claim::Capacity { course, price } => capacity_value(path, *course, *price),
        Claim::Days(course) => days_value(path, *course),
        Claim::Compact(curriculum) => compact_value(path, *curriculum),
        Claim::Stable(course) => stable_value(path, *course),
        Claim::Prices { courses, rooms } => prices_value(
            path,
            courses.as_slice(),
            rooms.as_slice(),
        ),
        Claim::Stacked(course) => stacked_value(path, *course),
    }
}

#[tactic(auto, using(crate::proofs::Sizes::prices_below))]
fn is_fair<'i, P: Path<'i>>(path: &P, claim: &Claim) -> bool
    requires { IsClaimOf (P.problem path.now) claim.now }
    ensures { result ≡ is_fair (P.problem path.now) (P.facts path.now) claim.now }
{
    match claim {
        Claim::Prices { courses, rooms } => are_covered(path, courses.as_slice(), rooms.as_slice()),
        _ => true,
    }
}

/// Returns whether the prices of each claim are covered.
pub fn are_fair<'i, P: Path<'i>>(path: &P, claims: &[Claim]) -> bool
    requires { All (IsClaimOf (P.problem path.now)) claims.now }
    ensures { result ≡ list_all (is_fair (P.problem path.now) (P.facts path.now)) claims.now }
{
    for claim in claims {
        if !is_fair(path, claim) {
            return false;
        }
    }
    true
}

/// Returns the total value of claims, capped at the maximum of a u64, in cost points.
pub fn total<'i, P: Path<'i>>(path: &P, claims: &[Claim]) -> u64
    requires { All (IsClaimOf (P.problem path.now)) claims.now }
    ensures value { result ≡ min (total_of (P.problem path.now) (P.facts path.now) claims.now) (2 ^ 64 - 1) }
    ensures within { total_of (P.problem path.now) (P.facts path.now) claims.now ≤ length (claimed claims.now) * MAX_TARGET_VALUE }
{
    let mut total: u64 = 0;
    for claim in claims {
        total = total.saturating_add(claim_value(path, claim));
    }
    total
}

/// Returns whether claims have a total value of at least this many cost points.
#[tactic(auto, using(crate::proofs::Sizes::at_most_capped))]
pub fn are_worth<'i, P: Path<'i>>(path: &P, claims: &[Claim], least: u64) -> bool
    requires { All (IsClaimOf (P.problem path.now)) claims.now }
    ensures { result ≡ nat_le least (total_of (P.problem path.now) (P.facts path.now) claims.now) }
{
    least <= total(path, claims)
}
