//! Removing cells from a table.

ghost use Rattle.std.specs.Prelude.{◌≡◌, ◌⊎◌, ◌<◌, ◌==◌, ◌&&◌, nat_lt, true, false, not, length, None, IfSome, OnOk};
ghost use Rattle.tt_instance.specs.declared.cell.Cell.{Cell};
ghost use Rattle.tt_path.specs.Facts.{agrees};
ghost use Rattle.tt_path.specs.Inner.Nested.{has_place_of};
ghost use Rattle.tt_path_tables.specs.Inner.Words.{width, room_of, is_here, Drops};
ghost use Rattle.tt_path_tables.specs.Inner.Tables.{has_cell, is_placed, IsTable, Loses, Widens};
ghost use Rattle.tt_path_tables.specs.Inner.Spots.{IsSpot, IsWideSlot};

use crate::places::{CLEARED, PLAIN, WIDE, allowed, open_word, place, width};
use crate::spot::Spot;
use std::alloc::AllocError;
use tt_bits::{Trail, clear, others};
use tt_instance::{Instance, Slot};
use tt_path::Pattern;

/// Lets the words of several periods count.
fn widen(instance: &Instance<'_>, table: &mut Trail) -> Result<(), AllocError>
    requires table { IsTable instance.now table.old.words }
    ensures ok { OnOk result (Widens instance.now table.old.words table.new.words) }
    ensures unchanged { table.new.earlier ≡ table.old.earlier }
{
    let last = table.len() - 1;
    if table.word(last) == PLAIN {
        table.set(last, WIDE)?;
    }
    Ok(())
}

/// Clears the bits of the room, or of all rooms, of a course on a day, in a period; either may be the one after the last.
#[inline(always)]
fn drop_rooms(
    instance: &Instance<'_>,
    table: &mut Trail,
    course: u32,
    slot: Slot,
    room: Option<u32>,
) -> Result<(), AllocError>
    requires course { course < length instance.now.courses }
    requires slot { IsWideSlot instance.now slot }
    requires table { IsTable instance.now table.old.words }
    ensures ok { OnOk result (Drops instance.now table.old.words table.new.words
        (λ b. is_here course slot.day slot.period b && nat_lt b.block (width instance.now) && agrees room (room_of b))) }
    ensures unchanged { table.new.earlier ≡ table.old.earlier }
{
    for block in 0..width(instance) {
        clear(
            table,
            place(instance, course, slot, block),
            allowed(room, block),
        )?;
    }
    Ok(())
}

/// Removes the course's cells in the room, or in all rooms, on the day, in the period; a day or a period that isn't given stands for all.
#[inline(never)]
pub fn remove_wide(
    instance: &Instance<'_>,
    table: &mut Trail,
    course: u32,
    pattern: &Pattern,
) -> Result<(), AllocError>
    requires course { course < length instance.now.courses }
    requires wide { (pattern.now.day ≡ None) ⊎ (pattern.now.period ≡ None) }
    requires day { IfSome pattern.now.day (λ d. d < instance.now.days) }
    requires period { IfSome pattern.now.period (λ s. s < instance.now.periods) }
    requires table { IsTable instance.now table.old.words }
    ensures ok { OnOk result (Loses instance.now table.old.words
        (λ x. (x.course == course) && has_place_of pattern.now x) table.new.words) }
    ensures unchanged { table.new.earlier ≡ table.old.earlier }
{
    let slot = Slot {
        day: pattern.day.unwrap_or(instance.days()),
        period: pattern.period.unwrap_or(instance.periods()),
    };
    widen(instance, table)?;
    drop_rooms(instance, table, course, slot, pattern.room)?;
    Ok(())
}

/// Removes the cells of a spot.
#[inline(always)]
pub fn remove_rooms(
    instance: &Instance<'_>,
    table: &mut Trail,
    spot: Spot,
) -> Result<(), AllocError>
    requires spot { IsSpot instance.now spot }
    requires table { IsTable instance.now table.old.words }
    ensures ok { OnOk result (Loses instance.now table.old.words
        (λ x. is_placed spot.course spot.slot.day spot.slot.period x && agrees spot.room x.room) table.new.words) }
    ensures unchanged { table.new.earlier ≡ table.old.earlier }
{
    drop_rooms(instance, table, spot.course, spot.slot, spot.room)?;
    Ok(())
}

/// Removes the course's cells in the spot's period, in whichever rooms, except those of the spot that another table has.
#[inline(always)]
pub fn keep_rooms(
    instance: &Instance<'_>,
    table: &mut Trail,
    kept: &Trail,
    spot: Spot,
) -> Result<(), AllocError>
    requires spot { IsSpot instance.now spot }
    requires table { IsTable instance.now table.old.words }
    requires kept { IsTable instance.now kept.now.words }
    ensures ok { OnOk result (Loses instance.now table.old.words
        (λ x. is_placed spot.course spot.slot.day spot.slot.period x
        && not (has_cell instance.now kept.now.words x && agrees spot.room x.room)) table.new.words) }
    ensures unchanged { table.new.earlier ≡ table.old.earlier }
{
    for block in 0..width(instance) {
        let word = open_word(instance, kept, spot, block);
        clear(
            table,
            place(instance, spot.course, spot.slot, block),
            others(word),
        )?;
    }
    Ok(())
}

/// Returns whether `remove_all` has removed all cells; then the table has none.
pub fn is_cleared(instance: &Instance<'_>, table: &Trail) -> bool
    requires table { IsTable instance.now table.now.words }
    ensures { result ≡ true → (x : Cell) → has_cell instance.now table.now.words x ≡ false }
{
    table.word(table.len() - 1) == CLEARED
}

/// Removes all cells, with a single write, or with none if it has done so before.
pub fn remove_all(instance: &Instance<'_>, table: &mut Trail) -> Result<(), AllocError>
    requires table { IsTable instance.now table.old.words }
    ensures ok { OnOk result (Loses instance.now table.old.words (λ x. true) table.new.words) }
    ensures unchanged { table.new.earlier ≡ table.old.earlier }
{
    if is_cleared(instance, table) {
        return Ok(());
    }
    let last = table.len() - 1;
    table.set(last, CLEARED)?;
    Ok(())
}
