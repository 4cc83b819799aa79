//! The changes by a step that breaks few hard rules: its change of the hard count is computed first.

ghost use Rattle.std.specs.Prelude.{◌≡◌, pos, ◌+ℤ◌, ◌≤ℤ◌, ◌<ℤ◌, IfSome, IfNone};
ghost use Rattle.tt_rules.specs.Score.{hard, cost};
ghost use Rattle.tt_moves.specs.Steps.{CanStep, stepped};

use crate::exchanges::exchanges_of;
use crate::exchanging::Change;
use crate::step::Step;
use tt_occupancy::Occupied;

/// Returns the change that a step would make in the hard count alone. Nothing is written and no memory is allocated.
pub fn hard_change(occupied: &Occupied<'_, '_>, step: Step) -> i64
    requires { CanStep occupied.now.problem occupied.now.entries step }
    ensures { pos (hard occupied.now.problem occupied.now.entries) +ℤ result
        ≡ pos (hard occupied.now.problem (stepped occupied.now.entries step)) }
{
    exchanges_of(occupied, step).hard_change()
}

/// Returns the changes that a step would make, if it breaks at most `limit` more hard rules than the timetable, and `None` if it breaks
/// more: then its cost is not computed. Nothing is written and no memory is allocated.
pub fn change_within(occupied: &Occupied<'_, '_>, step: Step, limit: i64) -> Option<Change>
    requires { CanStep occupied.now.problem occupied.now.entries step }
    ensures hard { IfSome result (λ c. pos (hard occupied.now.problem occupied.now.entries) +ℤ c.hard
        ≡ pos (hard occupied.now.problem (stepped occupied.now.entries step))) }
    ensures cost { IfSome result (λ c. pos (cost occupied.now.problem occupied.now.entries) +ℤ c.cost
        ≡ pos (cost occupied.now.problem (stepped occupied.now.entries step))) }
    ensures within { IfSome result (λ c. c.hard ≤ℤ limit) }
    ensures above { IfNone result ((pos (hard occupied.now.problem occupied.now.entries) +ℤ limit)
        <ℤ pos (hard occupied.now.problem (stepped occupied.now.entries step))) }
{
    let exchanges = exchanges_of(occupied, step);
    let hard = exchanges.hard_change();
    if hard > limit {
        return None;
    }
    Some(Change {
        hard,
        cost: exchanges.cost_change(),
    })
}
