//! Leaves that are found on small instances.

use crate::checked::leaf_after;
use std::alloc::Global;
use std::test::Fail;
use tt_instance::Instance;
use tt_instance_read::read_instance;
use tt_leaf::{Bound, Claim, Leaf};
use tt_leaf_find::best_claims;
use tt_path::{Fact, Pattern, PlainPath, Who};
use tt_path_trail::TrailPath;
use tt_testing_samples::{GAP, WIDE, edited};

/// Returns a yes-fact of the first course in a period of the first day.
fn first_course_in(period: u32) -> Fact {
    Fact {
        pattern: Pattern {
            who: Who::Course(0),
            room: None,
            day: Some(0),
            period: Some(period),
        },
        holds: true,
    }
}

/// Returns the leaves found on a new path after some facts, by the plain path and by the path with tables.
fn by_both(
    alloc: Global,
    instance: &Instance<'_>,
    facts: &[Fact],
    bound: Bound,
) -> Result<(Option<Leaf>, Option<Leaf>), Fail> {
    let mut plain = PlainPath::new(alloc, instance);
    let mut trail = TrailPath::new(alloc, instance)?;
    Ok((
        leaf_after(alloc, &mut plain, facts, bound)?,
        leaf_after(alloc, &mut trail, facts, bound)?,
    ))
}

/// Checks whether a leaf of costs has exactly this claim of seats.
fn is_of_seats(leaf: &Leaf) -> bool {
    match leaf {
        Leaf::Cost(claims) => matches!(
            claims.as_slice(),
            [Claim::Capacity {
                course: 1,
                price: 1,
            }]
        ),
        _ => false,
    }
}

/// Checks whether a leaf of costs has exactly one claim, of stacked days of the first course.
fn is_stacked(leaf: &Option<Leaf>) -> bool {
    match leaf {
        Some(Leaf::Cost(claims)) => matches!(claims.as_slice(), [Claim::Stacked(0)]),
        _ => false,
    }
}

#[test]
fn on_an_empty_path(rt: HostRuntime) -> Result<(), Fail> {
    let instance = read_instance(rt.alloc(), GAP.as_bytes())?;
    let plain = PlainPath::new(rt.alloc(), &instance);
    let trail = TrailPath::new(rt.alloc(), &instance)?;
    assert!(rt; is_of_seats(&best_claims(rt.alloc(), &plain)?));
    assert!(rt; is_of_seats(&best_claims(rt.alloc(), &trail)?));
    for (bound, found) in [
        (Bound::AtLeast(1), true),
        (Bound::AtLeast(2), false),
        (Bound::Nothing, false),
    ] {
        let (first, second) = by_both(rt.alloc(), &instance, &[], bound)?;
        assert_eq!(rt; (first.is_some(), second.is_some()), (found, found));
    }
    Ok(())
}

#[test]
fn two_lectures_on_one_day(rt: HostRuntime) -> Result<(), Fail> {
    // Two days of two periods, and a course of two lectures that needs both days.
    let fewer = edited(
        rt.alloc(),
        WIDE,
        "Days: 5\nPeriods_per_day: 1",
        "Days: 2\nPeriods_per_day: 2",
    )?;
    let text = edited(rt.alloc(), &fewer, "a t1 2 3 10", "a t1 2 2 10")?;
    let instance = read_instance(rt.alloc(), text.as_bytes())?;
    let facts = [first_course_in(0), first_course_in(1)];
    let (first, second) = by_both(rt.alloc(), &instance, &facts, Bound::AtLeast(5))?;
    assert!(rt; is_stacked(&first) && is_stacked(&second));
    let (first, second) = by_both(rt.alloc(), &instance, &facts, Bound::AtLeast(6))?;
    assert!(rt; first.is_none() && second.is_none());
    Ok(())
}
