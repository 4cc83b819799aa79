//! What a timetable breaks and costs, and how far it is from an older one.

ghost use Rattle.std.specs.Prelude.{◌≡◌, ◌<◌, ◌+◌, ◌*◌, ◌^◌, ◌↔◌, IfOk, IsTrue};
ghost use Rattle.tt_table.specs.Table.{IsTimetable};
ghost use Rattle.tt_stay.specs.Staying.{IsLower, IsWeight, total};

use crate::stay::Stay;
use std::alloc::{AllocError, Global};
use tt_changes::find_changes;
use tt_instance::Instance;
use tt_rules::score;
use tt_table::Timetable;

/// The hard count and the cost of a timetable, and the lectures that left their places in an older one.
#[derive(Clone, Copy, Debug, PartialEq, Eq)]
pub struct Weight {
    pub hard: u64,
    pub cost: u64,
    /// The number of lectures that left their period.
    pub moved: u64,
    /// The number of lectures that kept their period and left their room.
    pub rooms: u64,
}

/// Returns the price of this many lectures.
#[tactic(auto, using(crate::proofs::Weighing::price_small))]
fn price(count: u64, each: u32) -> u128
    ensures value { result ≡ each * count }
    ensures within { result < 2 ^ 96 }
{
    u128::from(each) * u128::from(count)
}

impl Weight {
    /// Returns the cost with the prices of the lectures that left their places.
    pub fn total(self, stay: Stay) -> u128
        ensures { result ≡ total stay self.cost self.moved self.rooms }
    {
        u128::from(self.cost) + price(self.moved, stay.period) + price(self.rooms, stay.room)
    }

    /// Returns whether it has a lower hard count, or the same and a lower total.
    pub fn is_below(self, other: Weight, stay: Stay) -> bool
        ensures { IsTrue result ↔ IsLower stay self other }
    {
        self.hard < other.hard || (self.hard == other.hard && self.total(stay) < other.total(stay))
    }
}

/// Returns the weight of a timetable.
pub fn weigh(
    alloc: Global,
    instance: &Instance<'_>,
    older: &Timetable,
    table: &Timetable,
) -> Result<Weight, AllocError>
    requires older { IsTimetable instance.now older.now }
    requires table { IsTimetable instance.now table.now }
    ensures { IfOk result (IsWeight instance.now older.now table.now) }
{
    let score = score(instance, table);
    let changes = find_changes(alloc, older, table)?;
    Ok(Weight {
        hard: score.hard(),
        cost: score.cost(),
        moved: changes.moved.len() as u64,
        rooms: changes.rooms.len() as u64,
    })
}
