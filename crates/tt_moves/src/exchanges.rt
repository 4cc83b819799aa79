//! The exchanges of entries that make a step.

ghost use Rattle.std.specs.Prelude.{◌≡◌, ◌<◌, length, pos, ◌+ℤ◌};
ghost use Rattle.tt_rules.specs.Score.{hard, cost};
ghost use Rattle.tt_occupancy.specs.Filled.{Filled};
ghost use Rattle.tt_moves.specs.Inner.Exchanges.{IsFirst, Lead, CanLead};
ghost use Rattle.tt_moves.specs.Inner.RoomsAndDays.{room_and_day_cost};
ghost use Rattle.tt_moves.specs.Steps.{CanStep, in_place_of, stepped};
ghost use Rattle.tt_moves.specs.declared.step.Step.{Step};

use crate::exchanging::Exchange;
use crate::rest::WithoutEntry;
use crate::step::Step;
use tt_occupancy::Occupied;
use tt_table::Entry;

/// Exchanges, in turn.
#[derive(Clone, Copy)]
pub enum Exchanges<'b, 'a, 'i> {
    /// No exchange: only the order of the entries changes.
    Same,
    One(Exchange<'b, 'a, 'i>),
    Two(Exchange<'b, 'a, 'i>, Exchange<'b, 'a, 'i>),
}

impl Exchanges<'_, '_, '_> {
    /// Returns the change of the hard count by the exchanges.
    #[inline(always)]
    pub fn hard_change(&self) -> i64
        requires { CanLead self.now }
        ensures { (o : Filled) (step : Step) → Lead o step self.now
            → pos (hard o.problem o.entries) +ℤ result ≡ pos (hard o.problem (stepped o.entries step)) }
    {
        match self {
            Exchanges::Same => 0,
            Exchanges::One(exchange) => exchange.hard_change(),
            Exchanges::Two(there, here) => {
                let hard_there = there.hard_change();
                let hard_here = here.hard_change();
                hard_there + hard_here
            }
        }
    }

    /// Returns the change of the cost of rooms and days by the exchanges.
    #[inline(always)]
    pub fn room_and_day_change(&self) -> i64
        requires { CanLead self.now }
        ensures { (o : Filled) (step : Step) → Lead o step self.now
            → pos (room_and_day_cost o.problem o.entries) +ℤ result
            ≡ pos (room_and_day_cost o.problem (stepped o.entries step)) }
    {
        match self {
            Exchanges::Same => 0,
            Exchanges::One(exchange) => exchange.room_and_day_change(),
            Exchanges::Two(there, here) => {
                let change_there = there.room_and_day_change();
                let change_here = here.room_and_day_change();
                change_there + change_here
            }
        }
    }

    /// Returns the change of the cost by the exchanges.
    #[inline(always)]
    pub fn cost_change(&self) -> i64
        requires { CanLead self.now }
        ensures { (o : Filled) (step : Step) → Lead o step self.now
            → pos (cost o.problem o.entries) +ℤ result ≡ pos (cost o.problem (stepped o.entries step)) }
    {
        match self {
            Exchanges::Same => 0,
            Exchanges::One(exchange) => exchange.cost_change(exchange.cost_before()),
            Exchanges::Two(there, here) => {
                let cost_there = there.cost_change(there.cost_before());
                let cost_here = here.cost_change(here.cost_before());
                cost_there + cost_here
            }
        }
    }
}

/// Returns an entry with its own course and the place of another entry.
fn in_place_of(entry: Entry, place: Entry) -> Entry
    ensures { result ≡ in_place_of entry place }
{
    Entry {
        course: entry.course,
        ..place
    }
}

/// Returns the exchange that makes a move of one entry.
#[inline(always)]
fn exchange_of_move<'b, 'a, 'i>(
    occupied: &'b Occupied<'a, 'i>,
    entry: u32,
    room: u32,
    day: u32,
    period: u32,
) -> Exchange<'b, 'a, 'i>
    requires entry { entry < length occupied.now.entries }
    requires room { room < length occupied.now.problem.rooms }
    requires day { day < occupied.now.problem.days }
    requires period { period < occupied.now.problem.periods }
    ensures { IsFirst occupied.now (Step.Move entry room day period) result
        (stepped occupied.now.entries (Step.Move entry room day period)) }
{
    let rest = WithoutEntry::without(occupied, entry);
    Exchange {
        rest,
        to: Entry {
            room,
            day,
            period,
            ..rest.gone
        },
    }
}

/// Returns the exchanges that make a swap of two entries: the first moves to the place of the second, then the second to the place of the first.
#[inline(always)]
fn exchanges_of_swap<'b, 'a, 'i>(
    occupied: &'b Occupied<'a, 'i>,
    first: u32,
    second: u32,
) -> Exchanges<'b, 'a, 'i>
    requires first { first < length occupied.now.entries }
    requires second { second < length occupied.now.entries }
    ensures { Lead occupied.now (Step.Swap first second) result }
{
    let without_one = WithoutEntry::without(occupied, first);
    let one = without_one.gone;
    let other = occupied.entry(second);
    if one.course == other.course {
        return Exchanges::Same;
    }
    let there = in_place_of(one, other);
    let without_other = WithoutEntry {
        to: there,
        gone: other,
        ..without_one
    };
    Exchanges::Two(
        Exchange {
            rest: without_one,
            to: there,
        },
        Exchange {
            rest: without_other,
            to: in_place_of(other, one),
        },
    )
}

/// Returns the exchanges that make a step.
#[inline(always)]
pub fn exchanges_of<'b, 'a, 'i>(occupied: &'b Occupied<'a, 'i>, step: Step) -> Exchanges<'b, 'a, 'i>
    requires { CanStep occupied.now.problem occupied.now.entries step }
    ensures { Lead occupied.now step result }
{
    match step {
        Step::Move {
            entry,
            room,
            day,
            period,
        } => Exchanges::One(exchange_of_move(occupied, entry, room, day, period)),
        Step::Swap { first, second } => exchanges_of_swap(occupied, first, second),
    }
}
