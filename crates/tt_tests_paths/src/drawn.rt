//! Leaves on random paths: if one path finds a leaf, the other does too, and it is right when checked on the plain path.

ghost use Rattle.std.specs.Prelude.{◌≡◌, []};
ghost use Rattle.tt_leaf_find.specs.Found.{ArePatterns};

use crate::checked::{Found, find, push};
use crate::each_leaf::is_closed;
use std::alloc::{AllocError, Global};
use std::test::Fail;
use tt_instance_read::read_instance;
use tt_leaf::Bound;
use tt_path::{Fact, Path, Pattern, PlainPath, Who};
use tt_path_trail::TrailPath;
use tt_testing_samples::{GAP, MINI, SAME, SEATS, TOUR, TRIO};

/// The number of random paths for each instance.
const PATHS: u64 = 60;

/// The maximum number of facts of a path.
const MOST_FACTS: u32 = 4;

/// The number of bounds that are tried on each path: cost points from 0 on.
const MOST_POINTS: u64 = 7;

/// A series of random numbers, the same for the same seed.
#[derive(Drop)]
struct Dice {
    state: u64,
}

impl Dice {
    /// Returns a number below a bound; 0 if the bound is 0.
    fn below(&mut self, bound: u32) -> u32 {
        self.state = self
            .state
            .wrapping_mul(6_364_136_223_846_793_005)
            .wrapping_add(1_442_695_040_888_963_407);
        if bound == 0 {
            return 0;
        }
        ((self.state >> 33) % u64::from(bound)) as u32
    }

    /// Returns a number below a bound two times out of three, else `None`.
    fn maybe_below(&mut self, bound: u32) -> Option<u32> {
        if self.below(3) == 0 {
            return None;
        }
        Some(self.below(bound))
    }

    /// Returns a fact of one of the first three courses, and of the first rooms, days and periods.
    fn fact(&mut self) -> Fact {
        let pattern = Pattern {
            who: Who::Course(self.below(3)),
            room: self.maybe_below(2),
            day: self.maybe_below(3),
            period: self.maybe_below(3),
        };
        Fact {
            pattern,
            holds: self.below(2) == 0,
        }
    }
}

/// Adds the facts of a seed whose numbers are the instance's.
fn push_drawn<'i, P: Path<'i>>(path: &mut P, seed: u64)
    requires { ArePatterns (P.problem path.old) (P.facts path.old) }
    ensures patterns { ArePatterns (P.problem path.new) (P.facts path.new) }
    ensures unchanged { P.problem path.new ≡ P.problem path.old }
{
    let mut dice = Dice { state: seed };
    for _number in 0..MOST_FACTS {
        let fact = dice.fact();
        let _added = push(path, fact);
    }
}

/// Checks that both paths find a leaf that is right, or neither finds one and none of the listed leaves is right on either path.
fn is_same<'i, P: Path<'i>, Q: Path<'i>>(
    alloc: Global,
    plain: &P,
    trail: &Q,
    bound: Bound,
) -> Result<bool, AllocError>
    requires plain { ArePatterns (P.problem plain.now) (P.facts plain.now) }
    requires trail { ArePatterns (Q.problem trail.now) (Q.facts trail.now) }
    requires same { Q.problem trail.now ≡ P.problem plain.now }
{
    let first = find(alloc, plain, plain, bound)?;
    let second = find(alloc, trail, plain, bound)?;
    let closed = is_closed(alloc, plain, bound)? || is_closed(alloc, trail, bound)?;
    Ok(match (first, second) {
        (Found::Right, Found::Right) => true,
        (Found::Nothing, Found::Nothing) => !closed,
        _ => false,
    })
}

/// Checks that the results on two empty paths are correct once the facts of a seed are added, for each bound.
fn all_same<'i, P: Path<'i>, Q: Path<'i>>(
    alloc: Global,
    plain: &mut P,
    trail: &mut Q,
    seed: u64,
) -> Result<bool, AllocError>
    requires plain { ArePatterns (P.problem plain.old) (P.facts plain.old) }
    requires trail { ArePatterns (Q.problem trail.old) (Q.facts trail.old) }
    requires same { Q.problem trail.old ≡ P.problem plain.old }
{
    push_drawn(plain, seed);
    push_drawn(trail, seed);
    for points in 0..MOST_POINTS {
        if !is_same(alloc, plain, trail, Bound::AtLeast(points))? {
            return Ok(false);
        }
    }
    is_same(alloc, plain, trail, Bound::Nothing)
}

/// Returns the first seed for which the paths differ or find a wrong leaf, if there is one.
fn first_wrong(alloc: Global, text: &str) -> Result<Option<u64>, Fail> {
    let instance = read_instance(alloc, text.as_bytes())?;
    for seed in 0..PATHS {
        let mut plain = PlainPath::new(alloc, &instance);
        let mut trail = TrailPath::new(alloc, &instance)?;
        if !all_same(alloc, &mut plain, &mut trail, seed)? {
            return Ok(Some(seed));
        }
    }
    Ok(None)
}

#[test]
fn drawn_paths(rt: HostRuntime) -> Result<(), Fail> {
    for text in [GAP, MINI, SAME, SEATS, TOUR, TRIO] {
        assert_eq!(rt; first_wrong(rt.alloc(), text)?, None);
    }
    Ok(())
}
