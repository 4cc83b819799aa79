//! The changes of the score by a step.

ghost use Rattle.std.specs.Prelude.{◌≡◌, ◌<◌, ◌↔◌, pos, ◌+ℤ◌, ◌≤ℤ◌, IsTrue};
ghost use Rattle.tt_rules.specs.Score.{hard, cost};
ghost use Rattle.tt_moves.specs.Changes.{IsBelow};
ghost use Rattle.tt_moves.specs.Steps.{CanStep, stepped};

use crate::exchanges::exchanges_of;
use crate::exchanging::Change;
use crate::step::Step;
use tt_occupancy::Occupied;

/// Returns the changes that a step would make. Nothing is written and no memory is allocated.
pub fn change(occupied: &Occupied<'_, '_>, step: Step) -> Change
    requires { CanStep occupied.now.problem occupied.now.entries step }
    ensures hard { pos (hard occupied.now.problem occupied.now.entries) +ℤ result.hard
        ≡ pos (hard occupied.now.problem (stepped occupied.now.entries step)) }
    ensures cost { pos (cost occupied.now.problem occupied.now.entries) +ℤ result.cost
        ≡ pos (cost occupied.now.problem (stepped occupied.now.entries step)) }
{
    let exchanges = exchanges_of(occupied, step);
    Change {
        hard: exchanges.hard_change(),
        cost: exchanges.cost_change(),
    }
}

/// Checks whether the cost can't fall if the cost of rooms and days rises so much and isolated entries cost so much.
fn outweighs(rise: i64, compactness: u64) -> bool
    ensures { IsTrue result → pos compactness ≤ℤ rise }
{
    u64::try_from(rise).is_ok_and(|rise| rise >= compactness)
}

/// Checks whether a step would break fewer hard rules, or equally many at a lower cost. Nothing is written and no memory is allocated. Isolated
/// entries are counted only if they decide.
pub fn lowers(occupied: &Occupied<'_, '_>, step: Step) -> bool
    requires { CanStep occupied.now.problem occupied.now.entries step }
    ensures { IsTrue result
        ↔ IsBelow occupied.now.problem (stepped occupied.now.entries step) occupied.now.entries }
{
    let exchanges = exchanges_of(occupied, step);
    let hard = exchanges.hard_change();
    if hard < 0 {
        return true;
    }
    if hard > 0 {
        return false;
    }
    let rise = exchanges.room_and_day_change();
    if outweighs(rise, occupied.score().compactness) {
        return false;
    }
    exchanges.cost_change() < 0
}
