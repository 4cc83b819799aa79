//! The places of the words of rooms.

ghost use Rattle.std.specs.Prelude.{◌≡◌, ◌<◌, ◌≤◌, ◌+◌, ◌*◌, ◌&&◌, ℕ, length};
ghost use Rattle.tt_instance.specs.Cells.{cell};
ghost use Rattle.tt_path.specs.Facts.{agrees};
ghost use Rattle.tt_bits.specs.Inner.Bits.{has_bit};
ghost use Rattle.tt_path_tables.specs.Inner.Words.{width, place, size, word_at};
ghost use Rattle.tt_path_tables.specs.Inner.Tables.{has_cell, is_open, IsTable};
ghost use Rattle.tt_path_tables.specs.Inner.Spots.{IsSlot, IsSpot, IsWideSlot};

use crate::spot::Spot;
use tt_bits::{Trail, both, one};
use tt_instance::{Instance, Slot};

/// The last word of a table whose words for several periods don't count.
pub const PLAIN: u64 = 0;

/// The last word of a table that has no cell.
pub const CLEARED: u64 = 1;

/// The last word of a table in which all words count.
pub const WIDE: u64 = 2;

/// Returns how many words the rooms take.
pub fn width(instance: &Instance<'_>) -> u32
    ensures value { result ≡ width instance.now }
    ensures within { result ≤ 8 }
{
    (instance.rooms() + 63) / 64
}

/// Returns the place of a word of rooms of a course in a period, or in several ones.
pub fn place(instance: &Instance<'_>, course: u32, slot: Slot, block: u32) -> usize
    requires course { course < length instance.now.courses }
    requires slot { IsWideSlot instance.now slot }
    requires block { block < width instance.now }
    ensures value { result ≡ place instance.now course slot.day slot.period + block }
    ensures within { result < size instance.now }
{
    let courses = instance.courses();
    let days = instance.days();
    let periods = instance.periods();
    let width = width(instance);
    prove!(course < courses);
    prove!(block < width);
    let row = course as usize * (days as usize + 1) + slot.day as usize;
    let column = row * (periods as usize + 1) + slot.period as usize;
    column * width as usize + block as usize
}

/// Returns the bits of a block that are the given room's, or all bits if no room is given.
pub fn allowed(room: Option<u32>, block: u32) -> u64
    ensures { (k : ℕ) → k < 64 → has_bit result k ≡ agrees room (block * 64 + k) }
{
    match room {
        None => u64::MAX,
        Some(number) if number / 64 == block => one(number % 64),
        Some(_) => 0,
    }
}

/// Returns the word of rooms of a course in a period that are in its word, and in its words for several periods too.
fn kept_word(instance: &Instance<'_>, table: &Trail, course: u32, slot: Slot, block: u32) -> u64
    requires course { course < length instance.now.courses }
    requires slot { IsSlot instance.now slot }
    requires block { block < width instance.now }
    requires table { IsTable instance.now table.now.words }
    ensures { (k : ℕ) → k < 64 → has_bit result k
        ≡ (has_bit (word_at instance.now table.now.words course slot.day slot.period block) k
        && (has_bit (word_at instance.now table.now.words course slot.day instance.now.periods block) k
        && (has_bit (word_at instance.now table.now.words course instance.now.days slot.period block) k
        && has_bit (word_at instance.now table.now.words course instance.now.days instance.now.periods block) k))) }
{
    let all_days = instance.days();
    let all_periods = instance.periods();
    let day = Slot {
        day: slot.day,
        period: all_periods,
    };
    let period = Slot {
        day: all_days,
        period: slot.period,
    };
    let week = Slot {
        day: all_days,
        period: all_periods,
    };
    let own = table.word(place(instance, course, slot, block));
    let of_day = table.word(place(instance, course, day, block));
    let of_period = table.word(place(instance, course, period, block));
    let of_week = table.word(place(instance, course, week, block));
    both(own, both(of_day, both(of_period, of_week)))
}

/// Returns a word of the rooms in which the table has a cell of a course in a period.
pub fn cells_word(
    instance: &Instance<'_>,
    table: &Trail,
    course: u32,
    slot: Slot,
    block: u32,
) -> u64
    requires course { course < length instance.now.courses }
    requires slot { IsSlot instance.now slot }
    requires block { block < width instance.now }
    requires table { IsTable instance.now table.now.words }
    ensures { (k : ℕ) → k < 64 → has_bit result k
        ≡ has_cell instance.now table.now.words (cell course (block * 64 + k) slot) }
{
    let state = table.word(table.len() - 1);
    if state == PLAIN {
        return table.word(place(instance, course, slot, block));
    }
    if state == CLEARED {
        return 0;
    }
    kept_word(instance, table, course, slot, block)
}

/// Returns a word of the rooms of a spot in which the table has a cell.
pub fn open_word(instance: &Instance<'_>, table: &Trail, spot: Spot, block: u32) -> u64
    requires spot { IsSpot instance.now spot }
    requires block { block < width instance.now }
    requires table { IsTable instance.now table.now.words }
    ensures { (k : ℕ) → k < 64 → has_bit result k
        ≡ is_open instance.now table.now.words spot.room spot.course spot.slot.day spot.slot.period (block * 64 + k) }
{
    let word = cells_word(instance, table, spot.course, spot.slot, block);
    both(word, allowed(spot.room, block))
}
