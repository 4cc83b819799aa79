//! Copies of leaves.

ghost use Rattle.std.specs.Prelude.{◌≡◌, IfOk};

use std::alloc::{AllocError, Global};
use tt_leaf::{Claim, ClaimList, CourseList, Leaf, PriceList};

fn copy_courses(alloc: Global, courses: &CourseList) -> Result<CourseList, AllocError>
    ensures { IfOk result (λ copy. copy ≡ courses.now) }
{
    let items = Vec::from_slice(alloc, courses.as_slice())?;
    Ok(CourseList::new(items))
}

fn copy_prices(alloc: Global, prices: &PriceList) -> Result<PriceList, AllocError>
    ensures { IfOk result (λ copy. copy ≡ prices.now) }
{
    let items = Vec::from_slice(alloc, prices.as_slice())?;
    Ok(PriceList::new(items))
}

fn copy_claim(alloc: Global, claim: &Claim) -> Result<Claim, AllocError>
    ensures { IfOk result (λ copy. copy ≡ claim.now) }
{
    match claim {
        Claim::Capacity { course, price } => Ok(Claim::Capacity {
            course: *course,
            price: *price,
        }),
        Claim::Days(course) => Ok(Claim::Days(*course)),
        Claim::Compact(curriculum) => Ok(Claim::Compact(*curriculum)),
        Claim::Stable(course) => Ok(Claim::Stable(*course)),
        Claim::Prices { courses, rooms } => Ok(Claim::Prices {
            courses: copy_prices(alloc, courses)?,
            rooms: copy_prices(alloc, rooms)?,
        }),
        Claim::Stacked(course) => Ok(Claim::Stacked(*course)),
    }
}

fn copy_claims(alloc: Global, claims: &[Claim]) -> Result<Vec<Claim>, AllocError>
    ensures { IfOk result (λ copy. copy.items ≡ claims.now) }
{
    let mut copy = Vec::new(alloc);
    for claim in claims {
        copy.push(copy_claim(alloc, claim)?)?;
    }
    Ok(copy)
}

/// Returns a copy of a leaf.
pub fn copy_leaf(alloc: Global, leaf: &Leaf) -> Result<Leaf, AllocError>
    ensures { IfOk result (λ copy. copy ≡ leaf.now) }
{
    match leaf {
        Leaf::Empty(pattern) => Ok(Leaf::Empty(*pattern)),
        Leaf::Many(course) => Ok(Leaf::Many(*course)),
        Leaf::Clique(courses) => Ok(Leaf::Clique(copy_courses(alloc, courses)?)),
        Leaf::Slots(courses) => Ok(Leaf::Slots(copy_courses(alloc, courses)?)),
        Leaf::Cost(claims) => {
            let copy = copy_claims(alloc, claims.as_slice())?;
            Ok(Leaf::Cost(ClaimList::new(copy)))
        }
    }
}
