//! Queries of a table.

ghost use Rattle.std.specs.Prelude.{◌≡◌, ◌<◌, ◌+◌, ◌*◌, ◌==◌, ◌||◌, ◌&&◌, ℕ, true, false, not, nat_lt, length, None};
ghost use Rattle.std.specs.List.{list_any, list_all};
ghost use Rattle.tt_instance.specs.Cells.{all_rooms, InRange};
ghost use Rattle.tt_instance.specs.declared.cell.Cell.{Cell};
ghost use Rattle.tt_list_laws.specs.Words.{range_below};
ghost use Rattle.tt_bits.specs.Inner.Bits.{has_bit, bits};
ghost use Rattle.tt_path_tables.specs.Inner.Words.{width};
ghost use Rattle.tt_path_tables.specs.Inner.Rooms.{has_room};
ghost use Rattle.tt_path_tables.specs.Inner.Tables.{has_cell, is_open, IsTable};
ghost use Rattle.tt_path_tables.specs.Inner.Spots.{IsSpot};

use crate::places::{WIDE, cells_word, open_word, place, width};
use crate::rooms::{Rooms, common_of};
use crate::spot::Spot;
use tt_bits::{Trail, has_bit, is_empty, with_if};
use tt_instance::{Cell, Instance, Slot};

/// Returns whether the table has a cell.
pub fn has_cell(instance: &Instance<'_>, table: &Trail, cell: Cell) -> bool
    requires cell { InRange instance.now cell }
    requires table { IsTable instance.now table.now.words }
    ensures { result ≡ has_cell instance.now table.now.words cell }
{
    let slot = Slot {
        day: cell.day,
        period: cell.period,
    };
    let word = cells_word(instance, table, cell.course, slot, cell.room / 64);
    has_bit(word, cell.room % 64)
}

/// Returns whether all cells of a course were removed at once.
pub fn is_gone(instance: &Instance<'_>, table: &Trail, course: u32) -> bool
    requires course { course < length instance.now.courses }
    requires table { IsTable instance.now table.now.words }
    ensures { result ≡ true → (x : Cell) → InRange instance.now x → x.course ≡ course → has_cell instance.now table.now.words x ≡ false }
{
    if table.word(table.len() - 1) != WIDE {
        return false;
    }
    let week = Slot {
        day: instance.days(),
        period: instance.periods(),
    };
    for block in 0..width(instance) {
        if !is_empty(table.word(place(instance, course, week, block))) {
            return false;
        }
    }
    true
}

/// Returns whether one of the words of rooms has some of these cells.
fn has_block(instance: &Instance<'_>, table: &Trail, spot: Spot, block: u32) -> bool
    requires spot { IsSpot instance.now spot }
    requires block { block < width instance.now }
    requires table { IsTable instance.now table.now.words }
    ensures { result ≡ list_any (λ k. is_open instance.now table.now.words
        spot.room spot.course spot.slot.day spot.slot.period (block * 64 + k)) bits }
{
    !is_empty(open_word(instance, table, spot, block))
}

/// Returns whether the table has some cell of the spot in one of the words of rooms.
fn has_blocks(instance: &Instance<'_>, table: &Trail, spot: Spot) -> bool
    requires spot { IsSpot instance.now spot }
    requires table { IsTable instance.now table.now.words }
    ensures { result ≡ list_any (λ w. list_any (λ k. is_open instance.now table.now.words
        spot.room spot.course spot.slot.day spot.slot.period (w * 64 + k)) bits) (range_below (width instance.now)) }
{
    (0..width(instance)).any(|block| has_block(instance, table, spot, block))
}

/// Returns whether the table has some cell of the spot.
#[inline(always)]
pub fn has_period(instance: &Instance<'_>, table: &Trail, spot: Spot) -> bool
    requires spot { IsSpot instance.now spot }
    requires table { IsTable instance.now table.now.words }
    ensures { result ≡ list_any (is_open instance.now table.now.words spot.room spot.course spot.slot.day spot.slot.period)
        (all_rooms instance.now) }
{
    has_blocks(instance, table, spot)
}

/// Returns the periods of a day in which the table has some cell of the course, as a set.
pub fn periods_of(instance: &Instance<'_>, table: &Trail, course: u32, day: u32) -> u64
    requires course { course < length instance.now.courses }
    requires day { day < instance.now.days }
    requires table { IsTable instance.now table.now.words }
    ensures { (s : ℕ) → s < 64 → has_bit result s ≡ (nat_lt s instance.now.periods
        && list_any (is_open instance.now table.now.words None course day s) (all_rooms instance.now)) }
{
    let mut periods = 0;
    for period in 0..instance.periods() {
        let spot = Spot {
            room: None,
            course,
            slot: Slot { day, period },
        };
        let is_in = has_period(instance, table, spot);
        periods = with_if(periods, period, is_in);
    }
    periods
}

/// Returns the rooms that equal each room of the table's cells of the spot.
#[inline(always)]
pub fn common_rooms(instance: &Instance<'_>, table: &Trail, spot: Spot) -> Rooms
    requires spot { IsSpot instance.now spot }
    requires table { IsTable instance.now table.now.words }
    ensures { (r : ℕ) → has_room result r ≡ list_all
        (λ k. not (is_open instance.now table.now.words spot.room spot.course spot.slot.day spot.slot.period k) || (k == r))
        (all_rooms instance.now) }
{
    let mut common = Rooms::All;
    for block in 0..width(instance) {
        let word = open_word(instance, table, spot, block);
        common = common.both(common_of(word, block));
    }
    common
}
