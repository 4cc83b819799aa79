//! Solution files from timetables.

ghost use Rattle.std.specs.Prelude.{◌≡◌, ◌<◌, ◌++◌, IfOk, OnOk, length};
ghost use Rattle.tt_text.specs.Lines.{line_text};
ghost use Rattle.tt_instance.specs.Cells.{InRange};
ghost use Rattle.tt_table.specs.Spelling.{SpellsTable, entry_pieces, solution_text};
ghost use Rattle.tt_table.specs.Table.{IsTimetable};

use crate::table::Timetable;
use std::alloc::{AllocError, Global};
use tt_instance::{Cell as Entry, Instance};
use tt_text::{put_line_end, put_next_number, put_next_token, put_token};

/// Appends one line: course, room, day and period.
fn put_entry(out: &mut Vec<u8>, instance: &Instance<'_>, entry: Entry) -> Result<(), AllocError>
    requires { InRange instance.now entry }
    ensures { OnOk result (out.new.items ≡ out.old.items ++ line_text (entry_pieces instance.now entry)) }
{
    put_token(out, instance.course_id(entry.course))?;
    put_next_token(out, instance.room_id(entry.room))?;
    put_next_number(out, u64::from(entry.day))?;
    put_next_number(out, u64::from(entry.period))?;
    put_line_end(out)
}

fn put_entries(
    alloc: Global,
    instance: &Instance<'_>,
    entries: &[Entry],
) -> Result<Vec<u8>, AllocError>
    requires { IsTimetable instance.now entries.now }
    ensures { IfOk result (λ out. out.items ≡ solution_text instance.now entries.now) }
{
    let mut out = Vec::new(alloc);
    for entry in entries {
        put_entry(&mut out, instance, *entry)?;
    }
    Ok(out)
}

/// Returns the text of a timetable: one line for each entry, in order.
pub fn write_solution(
    alloc: Global,
    instance: &Instance<'_>,
    table: &Timetable,
) -> Result<Vec<u8>, AllocError>
    requires { IsTimetable instance.now table.now }
    ensures text { IfOk result (λ out. out.items ≡ solution_text instance.now table.now) }
    // The text is read as the same timetable.
    ensures again { IfOk result (λ out. SpellsTable instance.now out.items table.now) }
{
    // Brings the instance's limits into the proof.
    prove!(instance.days() > 0);
    put_entries(alloc, instance, table.entries())
}
