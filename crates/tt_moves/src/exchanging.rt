//! The change of the score when one entry replaces another.

ghost use Rattle.std.specs.Prelude.{◌≡◌, List, pos, neg_ℤ, ◌+ℤ◌, ◌≤ℤ◌};
ghost use Rattle.tt_instance.specs.Problem.{Problem};
ghost use Rattle.tt_instance.specs.declared.cell.Cell.{Cell};
ghost use Rattle.tt_rules.specs.Score.{hard, cost};
ghost use Rattle.tt_rules.specs.declared.limit.TheConstants.{MAX_COUNT};
ghost use Rattle.tt_moves.specs.Inner.Exchanges.{IsExchange, CanExchange};
ghost use Rattle.tt_moves.specs.Inner.RoomsAndDays.{room_and_day_cost};
ghost use Rattle.tt_moves.specs.Pricing.{IsCost};

use crate::cost::EntryCost;
use crate::rest::WithoutEntry;
use tt_table::Entry;

/// The score after a step minus the score before it.
#[derive(Clone, Copy, Debug, PartialEq, Eq)]
pub struct Change {
    pub hard: i64,
    pub cost: i64,
}

/// The entry that a rest leaves out is replaced by another of its course.
#[derive(Clone, Copy)]
pub struct Exchange<'b, 'a, 'i> {
    pub rest: WithoutEntry<'b, 'a, 'i>,
    pub to: Entry,
}

impl Exchange<'_, '_, '_> {
    /// Returns the change of the hard count by the exchange.
    pub fn hard_change(&self) -> i64
        requires { CanExchange self.now }
        ensures value { (p : Problem) (u s t : List Cell) → IsExchange p self.now u s t
            → pos (hard p s) +ℤ result ≡ pos (hard p t) }
        ensures low { neg_ℤ (pos MAX_COUNT) ≤ℤ result }
        ensures high { result ≤ℤ pos MAX_COUNT }
    {
        let before = self.rest.hard_weight(self.rest.gone);
        let after = self.rest.hard_weight(self.to);
        i64::from(after) - i64::from(before)
    }

    /// Returns the change of the cost of rooms and days by the exchange.
    pub fn room_and_day_change(&self) -> i64
        requires { CanExchange self.now }
        ensures value { (p : Problem) (u s t : List Cell) → IsExchange p self.now u s t
            → pos (room_and_day_cost p s) +ℤ result ≡ pos (room_and_day_cost p t) }
        ensures low { neg_ℤ (pos MAX_COUNT) ≤ℤ result }
        ensures high { result ≤ℤ pos MAX_COUNT }
    {
        let before = self.rest.room_and_day_rise(self.rest.gone);
        let after = self.rest.room_and_day_rise(self.to);
        i64::from(after) - i64::from(before)
    }

    /// Returns the cost of the entry that is replaced.
    pub fn cost_before(&self) -> EntryCost
        requires { CanExchange self.now }
        ensures { (p : Problem) (u s t : List Cell) → IsExchange p self.now u s t
            → IsCost p u self.now.rest.gone result }
    {
        self.rest.cost_weight(self.rest.gone)
    }

    /// Returns the change of the cost by the exchange, if the replaced entry has this cost.
    pub fn cost_change(&self, before: EntryCost) -> i64
        requires { CanExchange self.now }
        ensures value { (p : Problem) (u s t : List Cell) → IsExchange p self.now u s t
            → IsCost p u self.now.rest.gone before
            → pos (cost p s) +ℤ result ≡ pos (cost p t) }
        ensures low { neg_ℤ (pos MAX_COUNT) ≤ℤ result }
        ensures high { result ≤ℤ pos MAX_COUNT }
    {
        let after = self.rest.cost_weight(self.to);
        i64::from(after.rise) + i64::from(before.fall)
            - i64::from(before.rise)
            - i64::from(after.fall)
    }
}
