//! Which wishes a timetable keeps.

ghost use Rattle.std.specs.Prelude.{◌≡◌, ◌≤◌, length};
ghost use Rattle.std.specs.List.{list_any};
ghost use Rattle.tt_wishes.specs.Wishes.{is_there, is_held, is_only_in, is_empty, is_kept, broken_wishes};

use crate::rooms::RoomList;
use crate::wish::{Place, Wish};
use tt_instance::Cell as Entry;
use tt_table::Timetable;

/// Returns whether some lecture of a course is there.
fn is_held(entries: &[Entry], course: u32, place: Place) -> bool
    ensures { result ≡ is_held entries.now course place }
{
    entries
        .iter()
        .any(|entry| entry.course == course && place.has(*entry))
}

/// Returns whether each lecture of a course is in one of these rooms.
fn is_only_in(entries: &[Entry], course: u32, rooms: &RoomList) -> bool
    ensures { result ≡ is_only_in entries.now course rooms.now }
{
    entries
        .iter()
        .all(|entry| entry.course != course || rooms.has(entry.room))
}

/// Returns whether some lecture is there.
fn has_entry(entries: &[Entry], place: Place) -> bool
    ensures { result ≡ list_any (is_there place) entries.now }
{
    entries.iter().any(|entry| place.has(*entry))
}

/// Returns whether no lecture is there.
fn is_empty(entries: &[Entry], place: Place) -> bool
    ensures { result ≡ is_empty entries.now place }
{
    !has_entry(entries, place)
}

/// Returns whether the entries keep a wish.
fn is_kept(entries: &[Entry], wish: &Wish) -> bool
    ensures { result ≡ is_kept entries.now wish.now }
{
    match wish {
        Wish::Hold { course, place } => is_held(entries, *course, *place),
        Wish::Rooms { course, rooms } => is_only_in(entries, *course, rooms),
        Wish::Closed(place) => is_empty(entries, *place),
    }
}

/// Returns whether a timetable keeps a wish.
pub fn keeps(table: &Timetable, wish: &Wish) -> bool
    ensures { result ≡ is_kept table.now wish.now }
{
    is_kept(table.entries(), wish)
}

/// Counts the wishes that the entries break.
fn count_broken(entries: &[Entry], wishes: &[Wish]) -> usize
    ensures value { result ≡ broken_wishes entries.now wishes.now }
    ensures within { result ≤ length wishes.now }
{
    let mut count = 0;
    for wish in wishes {
        if !is_kept(entries, wish) {
            count += 1;
        }
    }
    count
}

/// Returns the number of wishes that a timetable breaks.
pub fn broken_wishes(table: &Timetable, wishes: &[Wish]) -> u64
    ensures value { result ≡ broken_wishes table.now wishes.now }
    ensures within { result ≤ length wishes.now }
{
    count_broken(table.entries(), wishes) as u64
}
