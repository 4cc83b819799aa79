//! The change of the cost alone by a step.

ghost use Rattle.std.specs.Prelude.{◌≡◌, ◌<◌, length, pos, ◌+ℤ◌};
ghost use Rattle.tt_rules.specs.Score.{cost};
ghost use Rattle.tt_moves.specs.Pricing.{IsEntryCost};
ghost use Rattle.tt_moves.specs.Steps.{CanStep, first_of, stepped};

use crate::cost::EntryCost;
use crate::exchanges::{Exchanges, exchanges_of};
use crate::rest::WithoutEntry;
use crate::step::Step;
use tt_occupancy::Occupied;

/// Returns the cost of an entry at its place. It is the same for all steps of the entry.
pub fn entry_cost(occupied: &Occupied<'_, '_>, entry: u32) -> EntryCost
    requires { entry < length occupied.now.entries }
    ensures { IsEntryCost occupied.now.problem occupied.now.entries entry result }
{
    let rest = WithoutEntry::without(occupied, entry);
    rest.cost_weight(rest.gone)
}

/// Returns the change of the cost that a step would make, if its first entry has this cost. Nothing is written and no memory is allocated.
pub fn cost_change(occupied: &Occupied<'_, '_>, step: Step, before: EntryCost) -> i64
    requires step { CanStep occupied.now.problem occupied.now.entries step }
    requires before { IsEntryCost occupied.now.problem occupied.now.entries (first_of step) before }
    ensures { pos (cost occupied.now.problem occupied.now.entries) +ℤ result
        ≡ pos (cost occupied.now.problem (stepped occupied.now.entries step)) }
{
    match exchanges_of(occupied, step) {
        Exchanges::Same => 0,
        Exchanges::One(exchange) => exchange.cost_change(before),
        Exchanges::Two(there, here) => {
            let moved_there = there.cost_change(before);
            let moved_here = here.cost_change(here.cost_before());
            moved_there + moved_here
        }
    }
}
