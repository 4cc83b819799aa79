//! A leaf with prices over groups of courses.

ghost use Rattle.std.specs.Prelude.{◌+◌, ◌<◌, ◌≤◌, length, All, IfOk, IfSome, OnOk};
ghost use Rattle.tt_leaf.specs.Ranges.{ArePrices};
ghost use Rattle.tt_leaf_find.specs.Found.{IsAnswer, IsFitClaim};

use crate::best::{push_capacity_of, push_compact, push_if_worth};
use crate::crowds::{Crowd, find_crowds};
use crate::group_prices::Pricing;
use std::alloc::{AllocError, Global};
use tt_leaf::{Claim, ClaimList, Leaf, PriceList};
use tt_leaf_rules::claim_value;
use tt_path::Path;

/// The maximum price that may appear in a proof.
const MOST_PRICE: u32 = 1_000_000;

/// Adds the price of the next number, if it has one.
fn push_price(list: &mut Vec<(u32, u32)>, number: u32, price: u32) -> Result<(), AllocError>
    requires prices { ArePrices number list.old.items }
    requires short { All (λ k. k.1 ≤ MOST_PRICE) list.old.items }
    ensures prices { OnOk result (ArePrices (number + 1) list.new.items) }
    ensures short { OnOk result (All (λ k. k.1 ≤ MOST_PRICE) list.new.items) }
{
    if price == 0 {
        return Ok(());
    }
    list.push((number, price.min(MOST_PRICE)))?;
    Ok(())
}

/// Lists the prices of the numbers below a bound that have one.
fn list_prices(alloc: Global, count: u32, prices: &[u32]) -> Result<PriceList, AllocError>
    ensures prices { IfOk result (λ list. ArePrices count list) }
    ensures short { IfOk result (λ list. All (λ k. k.1 ≤ MOST_PRICE) list) }
{
    let mut list = Vec::new(alloc);
    for number in 0..count {
        let price = prices.get(number as usize).copied().unwrap_or(0);
        push_price(&mut list, number, price)?;
    }
    Ok(PriceList::new(list))
}

fn add_prices<'i, P: Path<'i>>(
    alloc: Global,
    path: &P,
    claims: &mut Vec<Claim>,
    pricing: &Pricing,
) -> Result<(), AllocError>
    requires { All (IsFitClaim (P.problem path.now)) claims.old.items }
    ensures { OnOk result (All (IsFitClaim (P.problem path.now)) claims.new.items) }
{
    let instance = path.instance();
    let courses = list_prices(alloc, instance.courses(), pricing.courses.as_slice())?;
    let rooms = list_prices(alloc, instance.rooms(), pricing.rooms.as_slice())?;
    push_if_worth(path, claims, Claim::Prices { courses, rooms })?;
    Ok(())
}

fn add_crowds<'i, P: Path<'i>>(
    alloc: Global,
    path: &P,
    claims: &mut Vec<Claim>,
    crowds: &[Pricing],
) -> Result<(), AllocError>
    requires { All (IsFitClaim (P.problem path.now)) claims.old.items }
    ensures { OnOk result (All (IsFitClaim (P.problem path.now)) claims.new.items) }
{
    for crowd in crowds {
        add_prices(alloc, path, claims, crowd)?;
    }
    Ok(())
}

/// Adds claims of the seats of the courses that are in no group.
fn add_capacities<'i, P: Path<'i>>(
    alloc: Global,
    path: &P,
    claims: &mut Vec<Claim>,
    crowd: &Crowd,
) -> Result<(), AllocError>
    requires { All (IsFitClaim (P.problem path.now)) claims.old.items }
    ensures { OnOk result (All (IsFitClaim (P.problem path.now)) claims.new.items) }
{
    for course in 0..path.instance().courses() {
        if crowd.is_alone(course) {
            push_capacity_of(alloc, path, claims, course)?;
        }
    }
    Ok(())
}

/// Returns the claim on the working days of a course that has the higher value.
fn days_claim<'i, P: Path<'i>>(path: &P, course: u32) -> Claim
    requires { course < length (P.problem path.now).courses }
    ensures { IsFitClaim (P.problem path.now) result }
{
    if claim_value(path, &Claim::Days(course)) < claim_value(path, &Claim::Stacked(course)) {
        Claim::Stacked(course)
    } else {
        Claim::Days(course)
    }
}

fn add_of_courses<'i, P: Path<'i>>(path: &P, claims: &mut Vec<Claim>) -> Result<(), AllocError>
    requires { All (IsFitClaim (P.problem path.now)) claims.old.items }
    ensures { OnOk result (All (IsFitClaim (P.problem path.now)) claims.new.items) }
{
    for course in 0..path.instance().courses() {
        push_if_worth(path, claims, days_claim(path, course))?;
        push_if_worth(path, claims, Claim::Stable(course))?;
    }
    Ok(())
}

/// Returns a leaf of claims in which courses that compete for rooms have prices together, and each course has the
/// better one of the two claims on its working days; `None` if no courses were found to compete, or the instance is
/// too large to search.
pub fn priced_claims<'i, P: Path<'i>>(alloc: Global, path: &P) -> Result<Option<Leaf>, AllocError>
    ensures { IfOk result (λ found. IfSome found (IsAnswer (P.problem path.now))) }
{
    let Some(crowd) = find_crowds(alloc, path)? else {
        return Ok(None);
    };
    let mut claims = Vec::new(alloc);
    add_crowds(alloc, path, &mut claims, crowd.pricings.as_slice())?;
    add_capacities(alloc, path, &mut claims, &crowd)?;
    add_of_courses(path, &mut claims)?;
    push_compact(path, &mut claims)?;
    Ok(Some(Leaf::Cost(ClaimList::new(claims))))
}
