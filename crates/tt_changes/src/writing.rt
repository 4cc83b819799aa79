//! The text of the changes of a timetable.

ghost use Rattle.std.specs.Prelude.{◌≡◌, ◌++◌, [], ◌∷◌, All, IfOk, OnOk, length, map};
ghost use Rattle.tt_text.specs.Lines.{line_text, lines_text};
ghost use Rattle.tt_instance.specs.Cells.{InRange};
ghost use Rattle.tt_changes.specs.Inner.Parts.{next_texts};
ghost use Rattle.tt_changes.specs.Lines.{place_pieces, change_line, entry_line, counts_line, changes_text};
ghost use Rattle.tt_changes.specs.Lists.{ChangeInRange, ChangesInRange};

use crate::change::{Change, Changes};
use std::alloc::{AllocError, Global};
use tt_instance::Instance;
use tt_table::Entry;
use tt_text::{put_line_end, put_next_number, put_next_token, put_token};

/// Appends the room, the day and the period of an entry.
fn put_place(out: &mut Vec<u8>, instance: &Instance<'_>, entry: Entry) -> Result<(), AllocError>
    requires { InRange instance.now entry }
    ensures { OnOk result (out.new.items ≡ out.old.items ++ next_texts (place_pieces instance.now entry)) }
{
    put_next_token(out, instance.room_id(entry.room))?;
    put_next_number(out, u64::from(entry.day))?;
    put_next_number(out, u64::from(entry.period))
}

/// Appends the line of a lecture with a word before it: its course, where it was and where it is.
fn put_change(
    out: &mut Vec<u8>,
    instance: &Instance<'_>,
    word: &[u8],
    change: Change,
) -> Result<(), AllocError>
    requires { ChangeInRange instance.now change }
    ensures { OnOk result (out.new.items ≡ out.old.items ++ line_text (change_line instance.now word.now change)) }
{
    put_token(out, word)?;
    put_next_token(out, instance.course_id(change.from.course))?;
    put_place(out, instance, change.from)?;
    put_next_token(out, b"to")?;
    put_place(out, instance, change.to)?;
    put_line_end(out)
}

/// Appends the line of an entry with a word before it.
fn put_entry(
    out: &mut Vec<u8>,
    instance: &Instance<'_>,
    word: &[u8],
    entry: Entry,
) -> Result<(), AllocError>
    requires { InRange instance.now entry }
    ensures { OnOk result (out.new.items ≡ out.old.items ++ line_text (entry_line instance.now word.now entry)) }
{
    put_token(out, word)?;
    put_next_token(out, instance.course_id(entry.course))?;
    put_place(out, instance, entry)?;
    put_line_end(out)
}

/// Appends the lines of changes.
fn put_moves(
    out: &mut Vec<u8>,
    instance: &Instance<'_>,
    word: &[u8],
    changes: &[Change],
) -> Result<(), AllocError>
    requires { All (ChangeInRange instance.now) changes.now }
    ensures { OnOk result (out.new.items ≡ out.old.items ++ lines_text (map (change_line instance.now word.now) changes.now)) }
{
    for change in changes {
        put_change(out, instance, word, *change)?;
    }
    Ok(())
}

/// Appends the lines of entries.
fn put_entries(
    out: &mut Vec<u8>,
    instance: &Instance<'_>,
    word: &[u8],
    entries: &[Entry],
) -> Result<(), AllocError>
    requires { All (InRange instance.now) entries.now }
    ensures { OnOk result (out.new.items ≡ out.old.items ++ lines_text (map (entry_line instance.now word.now) entries.now)) }
{
    for entry in entries {
        put_entry(out, instance, word, *entry)?;
    }
    Ok(())
}

/// Appends the line of the counts.
fn put_counts(out: &mut Vec<u8>, moved: usize, rooms: usize) -> Result<(), AllocError>
    ensures { OnOk result (out.new.items ≡ out.old.items ++ lines_text (counts_line moved rooms ∷ [])) }
{
    put_token(out, b"moved")?;
    put_next_number(out, moved as u64)?;
    put_next_token(out, b"rooms")?;
    put_next_number(out, rooms as u64)?;
    put_line_end(out)
}

/// Returns the text of the changes of a timetable: a line for each lecture, and one of the two counts.
pub fn write_changes(
    alloc: Global,
    instance: &Instance<'_>,
    changes: &Changes,
) -> Result<Vec<u8>, AllocError>
    requires { ChangesInRange instance.now changes.now }
    ensures { IfOk result (λ out. out.items ≡ changes_text instance.now changes.now (length changes.now.moved.items) (length changes.now.rooms.items)) }
{
    let mut out = Vec::new(alloc);
    put_moves(&mut out, instance, b"moved", &changes.moved)?;
    put_moves(&mut out, instance, b"room", &changes.rooms)?;
    put_entries(&mut out, instance, b"gone", &changes.gone)?;
    put_entries(&mut out, instance, b"added", &changes.added)?;
    put_counts(&mut out, changes.moved.len(), changes.rooms.len())?;
    Ok(out)
}
