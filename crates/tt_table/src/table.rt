//! Lists of entries.

ghost use Rattle.std.specs.Prelude.{◌≡◌, ◌<◌, ◌≤◌, ◌↔◌, [], ◌∷◌, ◌++◌, length, slice_get, slice_set, Some, IsTrue, All, IfOk, OnOk, OnErr, IsErrOf, IsOkUnless};
ghost use Rattle.tt_instance.specs.Cells.{InRange};
ghost use Rattle.tt_table.specs.Table.{IsTimetable};

use crate::fault::PushFault;
use std::alloc::{AllocError, Global};
use std::marker::Model;
use tt_instance::{Cell as Entry, Instance};

/// The maximum number of entries of a timetable.
pub const MAX_ENTRIES: usize = 16_384;

/// Entries in order, at most `MAX_ENTRIES` of them.
#[derive(Drop)]
pub struct Timetable {
    entries: Vec<Entry>,
}

impl Model for Timetable {
    ghost use Rattle.std.specs.Prelude.{List, length, ◌≤◌};
    ghost use Rattle.tt_instance.specs.declared.cell.Cell.{Cell};
    ghost use Rattle.tt_table.specs.declared.table.TheConstants.{MAX_ENTRIES};

    ghost Value = { List Cell };

    ghost view = { λ a. a.entries.items };

    ghost invariant = { λ a. length a.entries.items ≤ MAX_ENTRIES };
}

fn is_in_range(instance: &Instance<'_>, entry: Entry) -> bool
    ensures { IsTrue result ↔ InRange instance.now entry }
{
    entry.course < instance.courses()
        && entry.room < instance.rooms()
        && entry.day < instance.days()
        && entry.period < instance.periods()
}

impl Timetable {
    /// Creates a timetable without entries.
    pub fn new(alloc: Global) -> Self
        ensures { result ≡ [] }
    {
        Timetable {
            entries: Vec::new(alloc),
        }
    }

    /// Returns the number of entries.
    pub fn len(&self) -> usize
        ensures len { result ≡ length self.now }
        ensures within { result ≤ MAX_ENTRIES }
    {
        self.entries.len()
    }

    /// Returns whether the timetable has no entry.
    pub fn is_empty(&self) -> bool
        ensures { IsTrue result ↔ (self.now ≡ []) }
    {
        self.entries.is_empty()
    }

    /// Returns the entry at a place, counted from 0.
    pub fn get(&self, index: u32) -> Entry
        requires { index < length self.now }
        ensures { slice_get self.now index ≡ Some result }
    {
        self.entries[index as usize]
    }

    /// Returns the entries in order.
    pub fn entries(&self) -> &[Entry]
        ensures value { result.now ≡ self.now }
        ensures within { length result.now ≤ MAX_ENTRIES }
    {
        self.entries.as_slice()
    }

    /// Returns whether each entry is in an instance's range: each call that takes a timetable and an instance requires it.
    pub fn fits(&self, instance: &Instance<'_>) -> bool
        ensures { IsTrue result ↔ IsTimetable instance.now self.now }
    {
        self.entries
            .iter()
            .all(|entry| is_in_range(instance, *entry))
    }

    /// Adds an entry at the end.
    pub fn push(&mut self, entry: Entry) -> Result<(), PushFault>
        ensures ok { OnOk result (self.new ≡ self.old ++ entry ∷ []) }
        ensures full { length self.old ≡ MAX_ENTRIES → IsErrOf result PushFault.Full }
        ensures room { length self.old < MAX_ENTRIES → IsOkUnless result PushFault.OutOfMemory }
        ensures err { OnErr result (self.new ≡ self.old) }
    {
        if self.entries.len() == MAX_ENTRIES {
            return Err(PushFault::Full);
        }
        if self.entries.push(entry).is_err() {
            return Err(PushFault::OutOfMemory);
        }
        Ok(())
    }

    /// Adds an entry at the end of a timetable that is below the limit.
    pub fn push_below_limit(&mut self, entry: Entry) -> Result<(), AllocError>
        requires { length self.old < MAX_ENTRIES }
        ensures ok { OnOk result (self.new ≡ self.old ++ entry ∷ []) }
        ensures err { OnErr result (self.new ≡ self.old) }
    {
        self.entries.push(entry)?;
        Ok(())
    }

    /// Replaces the entry at a place.
    pub fn set(&mut self, index: u32, entry: Entry)
        requires { index < length self.old }
        ensures { self.new ≡ slice_set self.old index entry }
    {
        let place = index as usize;
        self.entries[place] = entry;
    }

    /// Returns a copy of the list.
    pub fn copy(&self) -> Result<Timetable, AllocError>
        ensures { IfOk result (λ t. t ≡ self.now) }
    {
        let alloc = *self.entries.allocator();
        let entries = self.entries.as_slice().to_vec(alloc)?;
        Ok(Timetable { entries })
    }
}
