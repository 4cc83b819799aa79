//! Compares both paths after equal pushes and pops.

use crate::answers::{all_reported, some_reported};
use crate::dice::{Dice, Ranges, ranges_of};
use crate::instances::{SMALL01, TINY05};
use crate::large::large_text;
use std::alloc::Global;
use std::test::Fail;
use tt_instance_read::read_instance;
use tt_path::{Fact, Path, PlainPath};
use tt_path_trail::TrailPath;
use tt_testing_samples::GAP;

/// The number of pushes and pops.
const STEPS: u32 = 500;

/// The answers that are compared after each step.
#[derive(Clone, Copy)]
enum Look {
    All,
    Drawn,
}

/// Removes and returns the newest fact, or returns `None` if there is none.
fn popped<'i, P: Path<'i>>(path: &mut P) -> Option<Fact> {
    if path.depth() == 0 {
        return None;
    }
    Some(path.pop())
}

/// Pushes a fact, or pops one if `fact` is `None`; returns whether both paths gave the same result.
fn step<'i, P: Path<'i>, Q: Path<'i>>(plain: &mut P, trail: &mut Q, fact: Option<Fact>) -> bool {
    match fact {
        Some(fact) => plain.push(fact).is_ok() == trail.push(fact).is_ok(),
        None => popped(plain) == popped(trail),
    }
}

/// Returns the next fact to push, or `None` if one is to be popped: about equally often, once there are some facts.
fn next_fact(dice: &mut Dice, depth: u32, ranges: Ranges) -> Option<Fact> {
    let goes = dice.below(16);
    if goes < depth {
        None
    } else {
        Some(dice.fact(ranges))
    }
}

/// Returns a path's answers as one number.
fn reported<'i, P: Path<'i>>(path: &P, ranges: Ranges, seed: u64, look: Look) -> u64 {
    match look {
        Look::All => all_reported(path, ranges, seed),
        Look::Drawn => some_reported(path, ranges, seed),
    }
}

/// Returns the first step after which the paths differ in an answer.
fn first_difference<'i, P: Path<'i>, Q: Path<'i>>(
    plain: &mut P,
    trail: &mut Q,
    seed: u64,
    look: Look,
) -> Option<u32> {
    let ranges = ranges_of(plain.instance());
    let mut dice = Dice { state: seed };
    for number in 0..STEPS {
        let fact = next_fact(&mut dice, plain.depth(), ranges);
        let same = step(plain, trail, fact);
        let seed = dice.state;
        if !same || reported(plain, ranges, seed, look) != reported(trail, ranges, seed, look) {
            return Some(number);
        }
    }
    None
}

/// Returns the first step after which both paths of an instance differ.
fn difference(alloc: Global, text: &str, seed: u64, look: Look) -> Result<Option<u32>, Fail> {
    let instance = read_instance(alloc, text.as_bytes())?;
    let mut plain = PlainPath::new(alloc, &instance);
    let mut trail = TrailPath::new(alloc, &instance)?;
    Ok(first_difference(&mut plain, &mut trail, seed, look))
}

#[test]
fn both_paths_agree_on_gap(rt: HostRuntime) -> Result<(), Fail> {
    assert_eq!(rt; difference(rt.alloc(), GAP, 1, Look::All)?, None);
    Ok(())
}

#[test]
fn both_paths_agree_on_tiny05(rt: HostRuntime) -> Result<(), Fail> {
    assert_eq!(rt; difference(rt.alloc(), TINY05, 3, Look::All)?, None);
    Ok(())
}

#[test]
fn both_paths_agree_on_small01(rt: HostRuntime) -> Result<(), Fail> {
    assert_eq!(rt; difference(rt.alloc(), SMALL01, 4, Look::All)?, None);
    Ok(())
}

#[test]
fn both_paths_agree_on_a_large_instance(rt: HostRuntime) -> Result<(), Fail> {
    let text = large_text(rt.alloc())?;
    assert_eq!(rt;
        difference(rt.alloc(), text.as_str(), 2, Look::Drawn)?,
        None
    );
    Ok(())
}
