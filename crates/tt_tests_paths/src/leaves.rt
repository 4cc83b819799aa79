//! Leaves that are checked on both paths.

ghost use Rattle.std.specs.Prelude.{◌≡◌, [], ◌∷◌, IfOk};
ghost use Rattle.tt_leaf.specs.declared.leaf.Claim.{Claim};
ghost use Rattle.tt_leaf.specs.declared.leaf.Leaf.{Leaf};

use crate::deadness::{fact_in_period, fact_of, pushed};
use std::alloc::{AllocError, Global};
use std::test::Fail;
use tt_instance_read::read_instance;
use tt_leaf::{Bound, Claim, ClaimList, CourseList, Leaf};
use tt_leaf_rules::{RuleFault, claim_value, holds, leaf_value};
use tt_path::{Path, Pattern, PlainPath, Who};
use tt_path_trail::TrailPath;
use tt_testing_samples::{APART, GAP, MINI, SAME, WIDE};

/// Pins Gap's courses in its first and its last period, and returns whether the path accepted both facts.
fn pin_both<'i, P: Path<'i>>(path: &mut P) -> bool {
    pushed(path, fact_in_period(Who::Course(0), 0, true))
        && pushed(path, fact_in_period(Who::Course(1), 2, true))
}

/// Returns the value of a claim of seats of the second course, at price 1; `None` if there is no such course.
fn seats_value<'i, P: Path<'i>>(path: &P) -> Option<u64> {
    if path.instance().courses() < 2 {
        return None;
    }
    let seats = Claim::Capacity {
        course: 1,
        price: 1,
    };
    Some(claim_value(path, &seats))
}

/// Returns the value of a claim of the first curriculum's isolated lectures; `None` if there are no curricula.
fn gaps_value<'i, P: Path<'i>>(path: &P) -> Option<u64> {
    if path.instance().curricula() == 0 {
        return None;
    }
    Some(claim_value(path, &Claim::Compact(0)))
}

/// Returns the leaf of both claims.
fn both_claims(alloc: Global) -> Result<Leaf, AllocError>
    ensures { IfOk result (λ leaf. leaf ≡ Leaf.Cost (Claim.Capacity 1 1 ∷ Claim.Compact 0 ∷ [])) }
{
    let seats = Claim::Capacity {
        course: 1,
        price: 1,
    };
    let claims = vec![in alloc; seats, Claim::Compact(0)]?;
    Ok(Leaf::Cost(ClaimList::new(claims)))
}

/// Returns the result of checking the leaf of both claims; `None` if the instance has no such course or curriculum.
fn both_checked<'i, P: Path<'i>>(
    alloc: Global,
    path: &P,
    bound: Bound,
) -> Result<Option<Result<(), RuleFault>>, AllocError> {
    if path.instance().courses() < 2 || path.instance().curricula() == 0 {
        return Ok(None);
    }
    let leaf = both_claims(alloc)?;
    Ok(Some(holds(path, &leaf, bound)))
}

/// Returns the value of the leaf of both claims.
fn both_value<'i, P: Path<'i>>(alloc: Global, path: &P) -> Result<Option<u64>, AllocError> {
    if path.instance().courses() < 2 || path.instance().curricula() == 0 {
        return Ok(None);
    }
    let leaf = both_claims(alloc)?;
    Ok(Some(leaf_value(path, &leaf)))
}

/// The values and results of the two claims and their leaf.
#[derive(Clone, Copy, Debug, PartialEq, Eq)]
struct Verdicts {
    values: (Option<u64>, Option<u64>, Option<u64>),
    at_five: Option<Result<(), RuleFault>>,
    at_six: Option<Result<(), RuleFault>>,
    at_nothing: Option<Result<(), RuleFault>>,
}

/// Returns the verdicts once both courses are pinned; `None` if the path didn't accept the facts.
fn pinned_verdicts<'i, P: Path<'i>>(
    alloc: Global,
    path: &mut P,
) -> Result<Option<Verdicts>, AllocError> {
    if !pin_both(path) {
        return Ok(None);
    }
    let value = both_value(alloc, path)?;
    Ok(Some(Verdicts {
        values: (seats_value(path), gaps_value(path), value),
        at_five: both_checked(alloc, path, Bound::AtLeast(5))?,
        at_six: both_checked(alloc, path, Bound::AtLeast(6))?,
        at_nothing: both_checked(alloc, path, Bound::Nothing)?,
    }))
}

/// Returns the result of checking a leaf that has the claim of seats of the second course twice; `None` if there is no such course.
fn twice_checked<'i, P: Path<'i>>(
    alloc: Global,
    path: &P,
    bound: Bound,
) -> Result<Option<Result<(), RuleFault>>, AllocError> {
    if path.instance().courses() < 2 {
        return Ok(None);
    }
    let leaf = seats_twice(alloc)?;
    Ok(Some(holds(path, &leaf, bound)))
}

/// Returns the leaf with the claim of seats of the second course twice.
fn seats_twice(alloc: Global) -> Result<Leaf, AllocError>
    ensures { IfOk result (λ leaf. leaf ≡ Leaf.Cost (Claim.Capacity 1 1 ∷ Claim.Capacity 1 1 ∷ [])) }
{
    let first = Claim::Capacity {
        course: 1,
        price: 1,
    };
    let second = Claim::Capacity {
        course: 1,
        price: 1,
    };
    let claims = vec![in alloc; first, second]?;
    Ok(Leaf::Cost(ClaimList::new(claims)))
}

/// Returns the leaf of a claim of the first course's working days.
fn days_alone(alloc: Global) -> Result<Leaf, AllocError>
    ensures { IfOk result (λ leaf. leaf ≡ Leaf.Cost (Claim.Days 0 ∷ [])) }
{
    let claims = vec![in alloc; Claim::Days(0)]?;
    Ok(Leaf::Cost(ClaimList::new(claims)))
}

/// Returns the result of checking the leaf of working days; `None` if there is no course.
fn days_checked<'i, P: Path<'i>>(
    alloc: Global,
    path: &P,
    bound: Bound,
) -> Result<Option<Result<(), RuleFault>>, AllocError> {
    if path.instance().courses() == 0 {
        return Ok(None);
    }
    let leaf = days_alone(alloc)?;
    Ok(Some(holds(path, &leaf, bound)))
}

/// Returns the result of checking a Many leaf of the first course; `None` if there is no course.
fn many_checked<'i, P: Path<'i>>(path: &P) -> Option<Result<(), RuleFault>> {
    if path.instance().courses() == 0 {
        return None;
    }
    Some(holds(path, &Leaf::Many(0), Bound::AtLeast(1)))
}

/// Returns the result of checking an Empty leaf of the first course in the first period; `None` if the instance has no such cell.
fn empty_checked<'i, P: Path<'i>>(path: &P) -> Option<Result<(), RuleFault>> {
    let instance = path.instance();
    if instance.courses() == 0 || instance.days() == 0 || instance.periods() == 0 {
        return None;
    }
    let pattern = Pattern {
        who: Who::Course(0),
        room: None,
        day: Some(0),
        period: Some(0),
    };
    Some(holds(path, &Leaf::Empty(pattern), Bound::AtLeast(1)))
}

/// Returns the results of checking the Empty leaf on an empty path, and after its fact is on the path.
fn emptied<'i, P: Path<'i>>(
    path: &mut P,
) -> (Option<Result<(), RuleFault>>, Option<Result<(), RuleFault>>) {
    let before = empty_checked(path);
    let _pinned = pushed(path, fact_in_period(Who::Course(0), 0, true));
    (before, empty_checked(path))
}

/// A leaf of a list of courses.
#[derive(Clone, Copy)]
enum List {
    Slots,
    Clique,
}

/// Returns the result of checking a leaf of some courses; `None` if one of them doesn't exist.
fn list_checked<'i, P: Path<'i>>(
    alloc: Global,
    path: &P,
    list: List,
    courses: &[u32],
) -> Result<Option<Result<(), RuleFault>>, AllocError> {
    let count = path.instance().courses();
    if !courses.iter().all(|course| *course < count) {
        return Ok(None);
    }
    let courses = CourseList::new(courses.to_vec(alloc)?);
    let leaf = match list {
        List::Slots => Leaf::Slots(courses),
        List::Clique => Leaf::Clique(courses),
    };
    Ok(Some(holds(path, &leaf, Bound::Nothing)))
}

/// Returns the results of checking a Clique of the second course on an empty path, and after a no-fact and a yes-fact have left it no period.
fn clique_checked<'i, P: Path<'i>>(
    alloc: Global,
    path: &mut P,
) -> Result<(Option<Result<(), RuleFault>>, Option<Result<(), RuleFault>>), AllocError> {
    let before = list_checked(alloc, path, List::Clique, &[1])?;
    let _barred = pushed(path, fact_in_period(Who::Curriculum(0), 0, false));
    let _taken = pushed(path, fact_of(Who::Course(0), true));
    let after = list_checked(alloc, path, List::Clique, &[1])?;
    Ok((before, after))
}

/// A question to a path.
#[derive(Clone, Copy)]
enum Question<'a> {
    Pinned,
    Courses(List, &'a [u32]),
    OneCourse,
    Twice,
    Days(Bound),
    Many,
    Emptied,
}

/// The answer of a path.
#[derive(Clone, Copy, Debug, PartialEq, Eq)]
enum Reported {
    Pinned(Option<Verdicts>),
    Courses(Option<Result<(), RuleFault>>),
    Before(Option<Result<(), RuleFault>>, Option<Result<(), RuleFault>>),
}

fn ask<'i, P: Path<'i>>(
    alloc: Global,
    path: &mut P,
    question: Question<'_>,
) -> Result<Reported, AllocError> {
    match question {
        Question::Pinned => Ok(Reported::Pinned(pinned_verdicts(alloc, path)?)),
        Question::Courses(list, courses) => {
            Ok(Reported::Courses(list_checked(alloc, path, list, courses)?))
        }
        Question::OneCourse => {
            let (before, after) = clique_checked(alloc, path)?;
            Ok(Reported::Before(before, after))
        }
        Question::Twice => Ok(Reported::Courses(twice_checked(alloc, path, Bound::AtLeast(2))?)),
        Question::Days(bound) => Ok(Reported::Courses(days_checked(alloc, path, bound)?)),
        Question::Many => Ok(Reported::Courses(many_checked(path))),
        Question::Emptied => {
            let (before, after) = emptied(path);
            Ok(Reported::Before(before, after))
        }
    }
}

/// Returns the answers of the plain path and of the other path.
fn answers(
    alloc: Global,
    text: &str,
    question: Question<'_>,
) -> Result<(Reported, Reported), Fail> {
    let instance = read_instance(alloc, text.as_bytes())?;
    let mut plain = PlainPath::new(alloc, &instance);
    let mut trail = TrailPath::new(alloc, &instance)?;
    let plainly = ask(alloc, &mut plain, question)?;
    Ok((plainly, ask(alloc, &mut trail, question)?))
}

#[test]
fn claims_of_two_pinned_courses(rt: HostRuntime) -> Result<(), Fail> {
    let reported = Reported::Pinned(Some(Verdicts {
        values: (Some(1), Some(4), Some(5)),
        at_five: Some(Ok(())),
        at_six: Some(Err(RuleFault::TooCheap)),
        at_nothing: Some(Err(RuleFault::NoBound)),
    }));
    assert_eq!(rt;
        answers(rt.alloc(), GAP, Question::Pinned)?,
        (reported, reported)
    );
    Ok(())
}

#[test]
fn lists_of_courses(rt: HostRuntime) -> Result<(), Fail> {
    for (text, list, courses, verdict) in [
        (
            APART,
            List::Slots,
            [0, 0].as_slice(),
            Err(RuleFault::ClaimedTwice),
        ),
        (APART, List::Slots, &[], Err(RuleFault::EnoughRoom)),
        (APART, List::Slots, &[0, 1], Ok(())),
        (APART, List::Clique, &[], Err(RuleFault::NotAClique)),
        (APART, List::Clique, &[0, 1], Err(RuleFault::NotAClique)),
        (SAME, List::Clique, &[0, 1], Ok(())),
        (MINI, List::Clique, &[0], Err(RuleFault::EnoughRoom)),
    ] {
        let reported = Reported::Courses(Some(verdict));
        let question = Question::Courses(list, courses);
        assert_eq!(rt; answers(rt.alloc(), text, question)?, (reported, reported));
    }
    Ok(())
}

#[test]
fn claims_and_single_courses(rt: HostRuntime) -> Result<(), Fail> {
    for (text, question, verdict) in [
        (MINI, Question::Twice, Err(RuleFault::ClaimedTwice)),
        (WIDE, Question::Days(Bound::AtLeast(5)), Ok(())),
        (
            WIDE,
            Question::Days(Bound::AtLeast(6)),
            Err(RuleFault::TooCheap),
        ),
        (
            WIDE,
            Question::Days(Bound::Nothing),
            Err(RuleFault::NoBound),
        ),
        (MINI, Question::Many, Err(RuleFault::NotTooMany)),
    ] {
        let reported = Reported::Courses(Some(verdict));
        assert_eq!(rt; answers(rt.alloc(), text, question)?, (reported, reported));
    }
    Ok(())
}

#[test]
fn a_pattern_that_has_cells(rt: HostRuntime) -> Result<(), Fail> {
    let reported = Reported::Before(
        Some(Err(RuleFault::NotOnPath)),
        Some(Err(RuleFault::StillAlive)),
    );
    assert_eq!(rt;
        answers(rt.alloc(), MINI, Question::Emptied)?,
        (reported, reported)
    );
    Ok(())
}

#[test]
fn a_clique_of_one(rt: HostRuntime) -> Result<(), Fail> {
    let reported = Reported::Before(Some(Err(RuleFault::EnoughRoom)), Some(Ok(())));
    assert_eq!(rt;
        answers(rt.alloc(), GAP, Question::OneCourse)?,
        (reported, reported)
    );
    Ok(())
}
