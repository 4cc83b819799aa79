//! Whether a leaf closes its node.

ghost use Rattle.std.specs.Prelude.{◌≡◌, ◌<◌, ◌↔◌, true, is_ok, All, IsTrue, length};
ghost use Rattle.tt_leaf_rules.specs.Claims.{total_of};
ghost use Rattle.tt_leaf_rules.specs.Faults.{fault_of};
ghost use Rattle.tt_leaf_rules.specs.Leaves.{IsRight};
ghost use Rattle.tt_leaf_rules.specs.Outcomes.{outcome, leaf_total, IsClaimedOnce};
ghost use Rattle.tt_leaf.specs.Ranges.{AreBelow, IsClaimOf, IsLeafOf};
ghost use Rattle.tt_leaf_rules.specs.Tests.{claims_once};
ghost use Rattle.tt_leaf.specs.declared.leaf.Bound.TheVariants.{AtLeast, Nothing};
ghost use Rattle.tt_leaf.specs.declared.leaf.Leaf.TheVariants.{Empty, Many, Clique, Slots, Cost};

use crate::claims::{are_fair, are_worth, total};
use crate::empty::are_all_dead;
use crate::fault::RuleFault;
use crate::groups::{are_distinct, has_more_lectures, is_clique, open_periods, open_rooms};
use crate::pinned::pinned_periods;
use crate::targets::are_claimed_once;
use tt_instance::{MAX_COURSES, MAX_CURRICULA};
use tt_leaf::{Bound, Claim, Leaf};
use tt_path::{Path, Pattern, Who};

fn fault_of_empty<'i, P: Path<'i>>(path: &P, pattern: &Pattern) -> Option<RuleFault>
    ensures { result ≡ fault_of (P.problem path.now) (P.facts path.now) Nothing (Empty pattern.now) }
{
    if !path.has(pattern, true) {
        Some(RuleFault::NotOnPath)
    } else if !are_all_dead(path, pattern) {
        Some(RuleFault::StillAlive)
    } else {
        None
    }
}

fn fault_of_many<'i, P: Path<'i>>(path: &P, course: u32) -> Option<RuleFault>
    requires { course < length (P.problem path.now).courses }
    ensures { result ≡ fault_of (P.problem path.now) (P.facts path.now) Nothing (Many course) }
{
    if path.instance().lectures(course) < pinned_periods(path, Who::Course(course)) {
        None
    } else {
        Some(RuleFault::NotTooMany)
    }
}

fn fault_of_clique<'i, P: Path<'i>>(path: &P, courses: &[u32]) -> Option<RuleFault>
    requires { AreBelow (length (P.problem path.now).courses) courses.now }
    ensures { result ≡ fault_of (P.problem path.now) (P.facts path.now) Nothing (Clique courses.now) }
{
    if !is_clique(path.instance(), courses) {
        Some(RuleFault::NotAClique)
    } else if !has_more_lectures(path.instance(), courses, open_periods(path, courses)) {
        Some(RuleFault::EnoughRoom)
    } else {
        None
    }
}

fn fault_of_slots<'i, P: Path<'i>>(path: &P, courses: &[u32]) -> Option<RuleFault>
    requires { AreBelow (length (P.problem path.now).courses) courses.now }
    ensures { result ≡ fault_of (P.problem path.now) (P.facts path.now) Nothing (Slots courses.now) }
{
    // Brings the instance's limits into the proof.
    prove!(path.instance().courses() <= MAX_COURSES);
    if !are_distinct(courses) {
        Some(RuleFault::ClaimedTwice)
    } else if !has_more_lectures(path.instance(), courses, open_rooms(path, courses)) {
        Some(RuleFault::EnoughRoom)
    } else {
        None
    }
}

fn fault_of_sum<'i, P: Path<'i>>(path: &P, claims: &[Claim], least: u64) -> Option<RuleFault>
    requires { All (IsClaimOf (P.problem path.now)) claims.now }
    ensures { result ≡ fault_of (P.problem path.now) (P.facts path.now) (AtLeast least) (Cost claims.now) }
{
    let instance = path.instance();
    // Brings the instance's limits into the proof.
    prove!(instance.courses() <= MAX_COURSES);
    prove!(instance.curricula() <= MAX_CURRICULA);
    if !are_claimed_once(claims) {
        Some(RuleFault::ClaimedTwice)
    } else if !are_fair(path, claims) {
        Some(RuleFault::BadPrice)
    } else if !are_worth(path, claims, least) {
        Some(RuleFault::TooCheap)
    } else {
        None
    }
}

fn fault_of_cost<'i, P: Path<'i>>(path: &P, claims: &[Claim], bound: Bound) -> Option<RuleFault>
    requires { All (IsClaimOf (P.problem path.now)) claims.now }
    ensures { result ≡ fault_of (P.problem path.now) (P.facts path.now) bound (Cost claims.now) }
{
    match bound {
        Bound::Nothing => Some(RuleFault::NoBound),
        Bound::AtLeast(least) => fault_of_sum(path, claims, least),
    }
}

fn fault_of<'i, P: Path<'i>>(path: &P, leaf: &Leaf, bound: Bound) -> Option<RuleFault>
    requires { IsLeafOf (P.problem path.now) leaf.now }
    ensures { result ≡ fault_of (P.problem path.now) (P.facts path.now) bound leaf.now }
{
    match leaf {
        Leaf::Empty(pattern) => fault_of_empty(path, pattern),
        Leaf::Many(course) => fault_of_many(path, *course),
        Leaf::Clique(courses) => fault_of_clique(path, courses.as_slice()),
        Leaf::Slots(courses) => fault_of_slots(path, courses.as_slice()),
        Leaf::Cost(claims) => fault_of_cost(path, claims.as_slice(), bound),
    }
}

/// Checks whether a leaf closes its node on a path; otherwise returns the first fault that applies.
pub fn holds<'i, P: Path<'i>>(path: &P, leaf: &Leaf, bound: Bound) -> Result<(), RuleFault>
    requires { IsLeafOf (P.problem path.now) leaf.now }
    ensures right { IsTrue (is_ok result) ↔ IsRight (P.problem path.now) (P.facts path.now) bound leaf.now }
    ensures first { result ≡ outcome (fault_of (P.problem path.now) (P.facts path.now) bound leaf.now) }
{
    match fault_of(path, leaf, bound) {
        None => Ok(()),
        Some(fault) => Err(fault),
    }
}

fn exact_total<'i, P: Path<'i>>(path: &P, claims: &[Claim]) -> u64
    requires claims { All (IsClaimOf (P.problem path.now)) claims.now }
    requires once { claims_once claims.now ≡ true }
    ensures { result ≡ total_of (P.problem path.now) (P.facts path.now) claims.now }
{
    let instance = path.instance();
    // This is the maximum number of targets, and the value of each is at most 2 ^ 44.
    prove!(3 * instance.courses() + instance.curricula() <= 3 * MAX_COURSES + MAX_CURRICULA);
    total(path, claims)
}

/// Returns the total value of the claims of a leaf on a path, in cost points.
pub fn leaf_value<'i, P: Path<'i>>(path: &P, leaf: &Leaf) -> u64
    requires leaf { IsLeafOf (P.problem path.now) leaf.now }
    requires once { IsClaimedOnce leaf.now }
    ensures { result ≡ leaf_total (P.problem path.now) (P.facts path.now) leaf.now }
{
    match leaf {
        Leaf::Cost(claims) => exact_total(path, claims.as_slice()),
        _ => 0,
    }
}
