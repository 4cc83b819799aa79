//! The least set of entries that is closed under links.

ghost use Rattle.std.specs.Prelude.{◌≡◌, ◌⊎◌, ℕ, ◌<◌, Bool, true, length, slice_index_or, OnOk, IfOk};
ghost use Rattle.tt_instance.specs.declared.cell.Cell.{Cell};
ghost use Rattle.tt_moves_chain.specs.Chains.{exclude, linked, IsClosed};
ghost use Rattle.tt_moves_chain.specs.Marks.{marked, IsMarking, IsSpread};

use crate::slots::SlotPair;
use std::alloc::{AllocError, Global};
use tt_instance::Instance;
use tt_table::Entry;

fn are_in_conflict(instance: &Instance<'_>, x: &Entry, y: &Entry) -> bool
    ensures { result ≡ exclude instance.now x.now y.now }
{
    x.room == y.room || x.course == y.course || instance.conflict(x.course, y.course)
}

/// Checks whether two entries are linked between two periods: there is one in each, and they conflict.
pub fn is_linked(instance: &Instance<'_>, pair: SlotPair, x: &Entry, y: &Entry) -> bool
    ensures { result ≡ linked instance.now pair.from pair.to x.now y.now }
{
    let SlotPair { from, to } = pair;
    let are_apart = x.is_at(from) && y.is_at(to) || x.is_at(to) && y.is_at(from);
    are_apart && are_in_conflict(instance, x, y)
}

/// Marks the place, and adds it to the waiting ones if it is newly marked.
fn mark(flags: &mut Vec<bool>, waiting: &mut Vec<usize>, at: usize) -> Result<(), AllocError>
    requires { at < length flags.old.items }
    ensures marking { OnOk result (IsMarking flags.old.items waiting.old.items flags.new.items waiting.new.items) }
    ensures marked { OnOk result (marked flags.new.items at ≡ true) }
    ensures only { OnOk result ((i : ℕ) → marked flags.new.items i ≡ true → (marked flags.old.items i ≡ true) ⊎ (i ≡ at)) }
{
    if !flags[at] {
        waiting.push(at)?;
        flags[at] = true;
    }
    Ok(())
}

/// Marks each entry that is linked to the one at the place, and adds those that are newly marked to the waiting ones.
fn reach(
    instance: &Instance<'_>,
    entries: &[Entry],
    pair: SlotPair,
    place: usize,
    flags: &mut Vec<bool>,
    waiting: &mut Vec<usize>,
) -> Result<(), AllocError>
    requires place { place < length entries.now }
    requires size { length flags.old.items ≡ length entries.now }
    ensures marking { OnOk result (IsMarking flags.old.items waiting.old.items flags.new.items waiting.new.items) }
    ensures reached { OnOk result ((j : ℕ) (d : Cell) → j < length entries.now →
        linked instance.now pair.from pair.to (slice_index_or entries.now place d) (slice_index_or entries.now j d) ≡ true →
        marked flags.new.items j ≡ true) }
    ensures sound { OnOk result ((m : ℕ → Bool) → IsClosed instance.now entries.now pair.from pair.to m → m place ≡ true →
        ((i : ℕ) → marked flags.old.items i ≡ true → m i ≡ true) → (i : ℕ) → marked flags.new.items i ≡ true → m i ≡ true) }
{
    let x = entries[place];
    for (j, y) in entries.iter().enumerate() {
        if is_linked(instance, pair, &x, y) {
            mark(flags, waiting, j)?;
        }
    }
    Ok(())
}

/// Marks the least set with the entry that is closed under links. The links of the waiting places are still to be followed.
pub fn spread(
    alloc: Global,
    instance: &Instance<'_>,
    entries: &[Entry],
    pair: SlotPair,
    entry: usize,
) -> Result<Vec<bool>, AllocError>
    requires { entry < length entries.now }
    ensures { IfOk result (λ v. IsSpread instance.now entries.now pair.from pair.to entry v.items) }
{
    let mut flags = vec![in alloc; false; entries.len()]?;
    let mut waiting = Vec::new(alloc);
    mark(&mut flags, &mut waiting, entry)?;
    while let Some(place) = waiting.pop() {
        reach(instance, entries, pair, place, &mut flags, &mut waiting)?;
    }
    Ok(flags)
}
