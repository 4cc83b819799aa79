//! Entries of two timetables in pairs that have something in common.

ghost use Rattle.std.specs.Prelude.{◌≡◌, ◌∷◌, true, false, All, IfOk, IfSome, IfNone, IsPermutation};
ghost use Rattle.tt_changes.specs.Inner.Pairings.{IsPaired, are_alike};

use crate::change::Change;
use crate::likeness::Likeness;
use std::alloc::{AllocError, Global};
use tt_table::Entry;

/// Pairs of an older entry and a newer one, and the entries that are in none.
#[derive(Drop)]
pub struct Pairing {
    pub pairs: Vec<Change>,
    pub older: Vec<Entry>,
    pub newer: Vec<Entry>,
}

/// Takes out of a list the first entry that has something in common with another.
fn take_alike(newer: &mut Vec<Entry>, likeness: Likeness, older: &Entry) -> Option<Entry>
    ensures alike { IfSome result (λ e. are_alike likeness older.now e ≡ true) }
    ensures taken { IfSome result (λ e. IsPermutation newer.old.items (e ∷ newer.new.items)) }
    ensures none { IfNone result (All (λ e. are_alike likeness older.now e ≡ false) newer.old.items) }
    ensures unchanged { IfNone result (newer.new.items ≡ newer.old.items) }
{
    for index in 0..newer.len() {
        if likeness.holds(older, &newer[index]) {
            return Some(newer.remove(index));
        }
    }
    None
}

/// Pairs each older entry with the first newer one that has this in common with it and isn't in a pair yet.
pub fn pair_up(
    alloc: Global,
    likeness: Likeness,
    older: &[Entry],
    newer: Vec<Entry>,
) -> Result<Pairing, AllocError>
    ensures { IfOk result (λ p. IsPaired likeness older.now newer.items p.pairs.items p.older.items p.newer.items) }
{
    let mut pairs = Vec::new(alloc);
    let mut alone = Vec::new(alloc);
    let mut left = newer;
    for entry in older {
        match take_alike(&mut left, likeness, entry) {
            Some(to) => pairs.push(Change { from: *entry, to })?,
            None => alone.push(*entry)?,
        }
    }
    Ok(Pairing {
        pairs,
        older: alone,
        newer: left,
    })
}
