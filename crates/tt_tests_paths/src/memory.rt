//! Both paths, between two marks: hostile/run.py refuses their allocations in turn. After a refusal each of their answers is unchanged.

use crate::answers::all_reported;
use crate::deadness::fact_in_period;
use crate::dice::{Dice, Ranges, ranges_of};
use std::test::Fail;
use tt_instance_read::read_instance;
use tt_path::{Path, PathFault, PlainPath, Who};
use tt_path_trail::TrailPath;
use tt_testing_samples::{GAP, MARK};

/// The maximum number of facts that are pushed.
const FACTS: u32 = 100;

#[test]
fn the_call_trail_path_new(rt: HostRuntime) -> Result<(), Fail> {
    let instance = read_instance(rt.alloc(), GAP.as_bytes())?;
    println!(rt; "{MARK}")?;
    let path = TrailPath::new(rt.alloc(), &instance);
    println!(rt; "{MARK}")?;
    assert_eq!(rt; path?.depth(), 0);
    Ok(())
}

/// Pushes facts that are drawn from a seed, until there are `most` of them or one is refused.
fn push_drawn<'i, P: Path<'i>>(path: &mut P, ranges: Ranges, most: u32) -> Result<(), PathFault> {
    let mut dice = Dice { state: 3 };
    for _ in 0..most {
        path.push(dice.fact(ranges))?;
    }
    Ok(())
}

/// Checks that a path gives the same answers as another one after as many of the same facts.
fn is_as<'i, P: Path<'i>, Q: Path<'i>>(
    path: &P,
    other: &mut Q,
    ranges: Ranges,
) -> Result<bool, PathFault> {
    push_drawn(other, ranges, path.depth())?;
    let same = all_reported(path, ranges, 5) == all_reported(other, ranges, 5);
    Ok(same && path.depth() == other.depth())
}

#[test]
fn the_call_push_of_trail_paths(rt: HostRuntime) -> Result<(), Fail> {
    let instance = read_instance(rt.alloc(), GAP.as_bytes())?;
    let ranges = ranges_of(&instance);
    let mut plain = PlainPath::new(rt.alloc(), &instance);
    let mut path = TrailPath::new(rt.alloc(), &instance)?;
    println!(rt; "{MARK}")?;
    let pushed = push_drawn(&mut path, ranges, FACTS);
    println!(rt; "{MARK}")?;
    assert_eq!(rt; is_as(&path, &mut plain, ranges), Ok(true));
    assert!(rt; pushed.is_err() || path.depth() == FACTS);
    Ok(pushed?)
}

/// Pushes a fact of each of forty periods, until one is refused.
fn push_facts(path: &mut PlainPath<'_, '_>) -> Result<(), PathFault> {
    for period in 0..40 {
        path.push(fact_in_period(Who::Course(0), period, true))?;
    }
    Ok(())
}

/// Returns the number of those facts that are on a path.
fn standing(path: &PlainPath<'_, '_>) -> u32 {
    (0..40)
        .filter(|period| path.has(&fact_in_period(Who::Course(0), *period, true).pattern, true))
        .count() as u32
}

#[test]
fn the_call_push_of_plain_paths(rt: HostRuntime) -> Result<(), Fail> {
    let instance = read_instance(rt.alloc(), GAP.as_bytes())?;
    let mut path = PlainPath::new(rt.alloc(), &instance);
    println!(rt; "{MARK}")?;
    let pushed = push_facts(&mut path);
    println!(rt; "{MARK}")?;
    assert_eq!(rt; path.depth(), standing(&path));
    assert!(rt; pushed.is_err() || path.depth() == 40);
    Ok(pushed?)
}
