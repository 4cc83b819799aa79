//! The cells that a no-fact removes from the tables.

ghost use Rattle.std.specs.Prelude.{◌≡◌, ◌<◌, ◌==◌, ◌&&◌, Some, length, OnOk};
ghost use Rattle.tt_path.specs.Facts.{matches};
ghost use Rattle.tt_path.specs.Inner.Nested.{has_place_of};
ghost use Rattle.tt_path_tables.specs.Inner.Tables.{IsTable, Loses};

use crate::courses::courses_of;
use crate::removing::{remove_rooms, remove_wide};
use crate::spot::Spot;
use std::alloc::AllocError;
use tt_bits::Trail;
use tt_instance::{Instance, Slot};
use tt_path::Pattern;

/// Removes a course's cells that agree with a pattern which gives this day and this period.
fn remove_at(
    instance: &Instance<'_>,
    table: &mut Trail,
    pattern: &Pattern,
    course: u32,
    slot: Slot,
) -> Result<(), AllocError>
    requires course { course < length instance.now.courses }
    requires day { pattern.now.day ≡ Some slot.day }
    requires period { pattern.now.period ≡ Some slot.period }
    requires table { IsTable instance.now table.old.words }
    ensures ok { OnOk result (Loses instance.now table.old.words
        (λ x. (x.course == course) && has_place_of pattern.now x) table.new.words) }
    ensures unchanged { table.new.earlier ≡ table.old.earlier }
{
    if slot.day >= instance.days() || slot.period >= instance.periods() {
        return Ok(());
    }
    let spot = Spot {
        room: pattern.room,
        course,
        slot,
    };
    remove_rooms(instance, table, spot)?;
    Ok(())
}

/// Removes a course's cells that agree with the pattern.
fn remove_of(
    instance: &Instance<'_>,
    table: &mut Trail,
    pattern: &Pattern,
    course: u32,
) -> Result<(), AllocError>
    requires course { course < length instance.now.courses }
    requires table { IsTable instance.now table.old.words }
    ensures ok { OnOk result (Loses instance.now table.old.words
        (λ x. (x.course == course) && has_place_of pattern.now x) table.new.words) }
    ensures unchanged { table.new.earlier ≡ table.old.earlier }
{
    match (pattern.day, pattern.period) {
        (Some(day), Some(period)) => {
            remove_at(instance, table, pattern, course, Slot { day, period })?;
            Ok(())
        }
        (Some(day), None) if day >= instance.days() => Ok(()),
        (None, Some(period)) if period >= instance.periods() => Ok(()),
        _ => {
            remove_wide(instance, table, course, pattern)?;
            Ok(())
        }
    }
}

/// Removes the cells that the pattern matches.
pub fn remove_matched(
    instance: &Instance<'_>,
    table: &mut Trail,
    pattern: &Pattern,
) -> Result<(), AllocError>
    requires table { IsTable instance.now table.old.words }
    ensures ok { OnOk result (Loses instance.now table.old.words (matches instance.now pattern.now) table.new.words) }
    ensures unchanged { table.new.earlier ≡ table.old.earlier }
{
    for course in courses_of(instance, &pattern.who) {
        if *course >= instance.courses() {
            continue;
        }
        remove_of(instance, table, pattern, *course)?;
    }
    Ok(())
}
