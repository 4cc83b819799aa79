//! Prices of capacity claims.

ghost use Rattle.std.specs.Prelude.{◌≡◌, ◌<◌, ◌≤◌, [], ◌++◌, true, length, All, Contains, IfOk, IfSome, OnOk};
ghost use Rattle.std.specs.List.{cons_option};
ghost use Rattle.std.specs.Ordering.{nat_cmp};
ghost use Rattle.std.specs.Vec.Iter.{into_iter_items};
ghost use Rattle.itertools.specs.Extremes.{IsKLeast, by_cmp};
ghost use Rattle.tt_instance.specs.Cells.{slot};
ghost use Rattle.tt_instance.specs.Courses.{lectures};
ghost use Rattle.tt_leaf_find.specs.Best.{kth_smallest, least_excesses, price_of};
ghost use Rattle.tt_leaf_find.specs.Inner.Seated.{is_seated, seated_periods};
ghost use Rattle.tt_instance.specs.declared.limit.TheConstants.{MAX_SEATS};

use itertools::Itertools;
use std::alloc::{AllocError, Global};
use std::vec::IntoIter;
use tt_instance::Slot;
use tt_leaf_rules::{slot_at, slot_count};
use tt_path::Path;

/// Returns the `k` smallest numbers, in ascending order.
fn smallest(alloc: Global, numbers: &[u32], k: usize) -> Result<IntoIter<u32>, AllocError>
    ensures { IfOk result (λ it. IsKLeast (by_cmp nat_cmp) k numbers.now (into_iter_items it)) }
{
    numbers.iter().copied().k_smallest(alloc, k)
}

/// Returns the `k`-th smallest number, counted from 1, or the greatest if there are fewer.
fn kth_smallest(alloc: Global, numbers: &[u32], k: usize) -> Result<Option<u32>, AllocError>
    ensures value { IfOk result (λ found. found ≡ kth_smallest k numbers.now) }
    ensures member { IfOk result (λ found. IfSome found (Contains numbers.now)) }
{
    Ok(smallest(alloc, numbers, k)?.next_back())
}

/// Adds the excess, if one is given.
fn push_some(excesses: &mut Vec<u32>, found: Option<u64>) -> Result<(), AllocError>
    requires { IfSome found (λ n. n ≤ MAX_SEATS) }
    ensures { OnOk result (excesses.new.items ≡ excesses.old.items ++ cons_option found []) }
{
    if let Some(excess) = found {
        excesses.push(excess as u32)?;
    }
    Ok(())
}

/// Returns the least excesses of a course's live periods, in students.
fn least_excesses<'i, P: Path<'i>>(
    alloc: Global,
    path: &P,
    course: u32,
) -> Result<Vec<u32>, AllocError>
    requires { course < length (P.problem path.now).courses }
    ensures value { IfOk result (λ found. found.items ≡ least_excesses (P.problem path.now) (P.facts path.now) course) }
    ensures within { IfOk result (λ found. All (λ n. n ≤ MAX_SEATS) found.items) }
{
    let instance = path.instance();
    let mut excesses = Vec::new(alloc);
    for place in 0..slot_count(instance) {
        let slot = slot_at(instance, place);
        push_some(
            &mut excesses,
            path.least_excess(course, slot.day, slot.period),
        )?;
    }
    Ok(excesses)
}

/// Returns the price at which a course's capacity is claimed.
pub fn price_of<'i, P: Path<'i>>(
    alloc: Global,
    path: &P,
    course: u32,
) -> Result<Option<u32>, AllocError>
    requires { course < length (P.problem path.now).courses }
    ensures value { IfOk result (λ price. price ≡ price_of (P.problem path.now) (P.facts path.now) course) }
    ensures within { IfOk result (λ price. IfSome price (λ n. n ≤ MAX_SEATS)) }
{
    let excesses = least_excesses(alloc, path, course)?;
    kth_smallest(
        alloc,
        excesses.as_slice(),
        path.instance().lectures(course) as usize,
    )
}

/// Returns whether some live cell of the course in the period seats its students.
fn is_seated<'i, P: Path<'i>>(path: &P, course: u32, slot: Slot) -> bool
    requires course { course < length (P.problem path.now).courses }
    requires day { slot.day < (P.problem path.now).days }
    requires period { slot.period < (P.problem path.now).periods }
    ensures { result ≡ is_seated (P.problem path.now) (P.facts path.now) course slot }
{
    path.least_excess(course, slot.day, slot.period) == Some(0)
}

/// Returns whether a course has at least as many periods that seat its students as lectures. A claim on its seats has no value then.
pub fn has_seats<'i, P: Path<'i>>(path: &P, course: u32) -> bool
    requires { course < length (P.problem path.now).courses }
    ensures { result ≡ true → lectures (P.problem path.now) course ≤ seated_periods (P.problem path.now) (P.facts path.now) course }
{
    let instance = path.instance();
    let wanted = instance.lectures(course);
    let mut seated = 0;
    for place in 0..slot_count(instance) {
        if is_seated(path, course, slot_at(instance, place)) {
            seated += 1;
            if wanted <= seated {
                return true;
            }
        }
    }
    false
}
