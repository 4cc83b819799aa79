//! A path as a plain list of facts: each answer is computed from the list.

ghost use Rattle.std.specs.Prelude.{◌≡◌, ◌≤◌, []};
ghost use Rattle.tt_path.specs.Live.{least_with};
ghost use Rattle.tt_path.specs.declared.facts.Fact.{Fact};

mod cells;

use crate::facts::{Fact, Pattern, Who, is_given};
use crate::path::{MAX_FACTS, Path, PathFault};
use std::alloc::Global;
use std::marker::Model;
use tt_bits::with_if;
use tt_instance::{Cell, Instance};

/// The facts as a list, without further tables; each answer goes through all facts.
#[derive(Drop)]
pub struct PlainPath<'p, 'i> {
    instance: &'p Instance<'i>,
    facts: Vec<Fact>,
}

impl<'p, 'i> Model for PlainPath<'p, 'i> {
    ghost use Rattle.std.specs.Prelude.{◌≤◌, length};
    ghost use Rattle.tt_path.specs.Inner.Paths.{Facts};
    ghost use Rattle.tt_path.specs.declared.path.TheConstants.{MAX_FACTS};

    ghost Value = { Facts };

    ghost view = { λ s. record { problem = s.instance.now; facts = s.facts.items } };

    ghost invariant = { λ s. length s.facts.items ≤ MAX_FACTS };
}

impl<'p, 'i> PlainPath<'p, 'i> {
    /// Creates a path with no facts; it allocates no memory yet.
    pub fn new(alloc: Global, instance: &'p Instance<'i>) -> PlainPath<'p, 'i>
        ensures problem { result.problem ≡ instance.now }
        ensures facts { result.facts ≡ [] }
    {
        PlainPath {
            instance,
            facts: Vec::new(alloc),
        }
    }
}

/// Returns the lesser of a number and the least one so far.
fn least_with(number: u64, least: Option<u64>) -> u64
    ensures value { result ≡ least_with number least }
    ensures within { result ≤ number }
{
    match least {
        None => number,
        Some(found) => number.min(found),
    }
}

impl<'p, 'i> Path<'i> for PlainPath<'p, 'i> {
    ghost problem = { λ s. s.problem };

    ghost facts = { λ s. s.facts };

    fn instance(&self) -> &Instance<'i> {
        self.instance
    }

    fn depth(&self) -> u32 {
        self.facts.len() as u32
    }

    fn fact(&self, index: u32) -> Fact {
        self.facts[index as usize]
    }

    fn push(&mut self, fact: Fact) -> Result<(), PathFault> {
        if self.depth() == MAX_FACTS {
            return Err(PathFault::TooDeep);
        }
        self.facts.push(fact).map_err(|_| PathFault::OutOfMemory)
    }

    fn pop(&mut self) -> Fact {
        self.facts.pop().unwrap()
    }

    fn has(&self, pattern: &Pattern, holds: bool) -> bool {
        self.facts
            .iter()
            .any(|fact| fact.holds == holds && fact.pattern == *pattern)
    }

    fn dead(&self, cell: Cell) -> bool {
        self.is_dead(cell)
    }

    fn live_period(&self, course: u32, day: u32, period: u32) -> bool {
        self.is_live_period(course, day, period)
    }

    fn live_periods(&self, course: u32, day: u32) -> u64 {
        let mut live = 0;
        for period in 0..self.instance.periods() {
            live = with_if(live, period, self.is_live_period(course, day, period));
        }
        live
    }

    fn live_rooms(&self, course: u32, day: u32, period: u32, block: u32) -> u64 {
        let rooms = self.instance.rooms();
        let first = block * 64;
        let mut live = 0;
        for number in 0..(rooms - first).min(64) {
            live = with_if(
                live,
                number,
                self.is_live(course, first + number, day, period),
            );
        }
        live
    }

    fn live_day(&self, course: u32, day: u32) -> bool {
        (0..self.instance.periods()).any(|period| self.is_live_period(course, day, period))
    }

    #[tactic(auto, using(crate::proofs::Least::least_more))]
    fn least_excess(&self, course: u32, day: u32, period: u32) -> Option<u64> {
        let mut least = None;
        for room in 0..self.instance.rooms() {
            if self.is_live(course, room, day, period) {
                least = Some(least_with(self.excess(course, room), least));
            }
        }
        least
    }

    fn pinned(&self, who: Who, day: u32, period: u32) -> bool {
        self.facts.iter().any(|fact| {
            fact.holds
                && who.is_pinned_by(self.instance, fact.pattern.who)
                && is_given(fact.pattern.day, day)
                && is_given(fact.pattern.period, period)
        })
    }

    fn pinned_periods(&self, who: Who, day: u32) -> u64 {
        let mut pinned = 0;
        for period in 0..self.instance.periods() {
            pinned = with_if(pinned, period, self.pinned(who, day, period));
        }
        pinned
    }

    fn pinned_room(&self, course: u32, room: u32) -> bool {
        self.facts.iter().any(|fact| {
            fact.holds
                && Who::Course(course).is_pinned_by(self.instance, fact.pattern.who)
                && is_given(fact.pattern.room, room)
        })
    }

    fn pinned_rooms(&self, course: u32, block: u32) -> u64 {
        let rooms = self.instance.rooms();
        let first = block * 64;
        let mut pinned = 0;
        for number in 0..(rooms - first).min(64) {
            pinned = with_if(pinned, number, self.pinned_room(course, first + number));
        }
        pinned
    }
}
