//! The search for the chain of an entry.

ghost use Rattle.std.specs.Prelude.{◌≡◌, ℕ, ◌<◌, ◌≤◌, true, false, List, length, slice_index, filter, All, IfOk, MatchOption};
ghost use Rattle.std.specs.List.Sorted.{IsStrictlyIncreasing};
ghost use Rattle.tt_list_laws.specs.Words.{range_below};
ghost use Rattle.tt_instance.specs.Cells.{slot, slot_of, is_at};
ghost use Rattle.tt_table.specs.Table.{IsTimetable};
ghost use Rattle.tt_table.specs.declared.table.TheConstants.{MAX_ENTRIES};
ghost use Rattle.tt_moves_chain.specs.Chains.{IsChain, other};
ghost use Rattle.tt_occupancy.specs.Filled.{entry_at};
ghost use Rattle.tt_moves_chain.specs.Answers.{IsAnswer, IsPeriod, is_shut, same_slot};
ghost use Rattle.tt_moves_chain.specs.Marks.{marked};

use crate::kempe::{Chain, ChainFault};
use crate::slots::SlotPair;
use crate::spreading::spread;
use std::alloc::{AllocError, Global};
use tt_instance::Slot;
use tt_occupancy::Occupied;
use tt_table::Entry;

/// Returns the numbers of the marked places, in increasing order.
fn places_of(alloc: Global, flags: &[bool]) -> Result<Vec<u32>, AllocError>
    requires { length flags.now ≤ MAX_ENTRIES }
    ensures { IfOk result (λ v. v.items ≡ filter (marked flags.now) (range_below (length flags.now))) }
{
    let mut places = Vec::new(alloc);
    for i in 0..flags.len() {
        if flags[i] {
            places.push(i as u32)?;
        }
    }
    Ok(places)
}

/// Returns the one of two periods in which an entry is not.
pub fn other_period(pair: SlotPair, entry: Entry) -> Slot
    ensures { result ≡ other pair.from pair.to entry }
{
    if entry.day == pair.from.day && entry.period == pair.from.period {
        pair.to
    } else {
        pair.from
    }
}

/// Checks whether two periods are equal.
fn is_same_slot(a: Slot, b: Slot) -> bool
    ensures { result ≡ same_slot a b }
{
    a.day == b.day && a.period == b.period
}

/// Checks whether the other period of an entry is unavailable.
pub fn is_barred(occupied: &Occupied<'_, '_>, pair: SlotPair, index: u32) -> bool
    requires { index < length occupied.now.entries }
    ensures { result ≡ is_shut occupied.now.problem occupied.now.entries pair.from pair.to index }
{
    let entry = occupied.entry(index);
    let place = other_period(pair, entry);
    occupied
        .instance()
        .unavailable(entry.course, place.day, place.period)
}

/// Returns the first of some entries whose other period is unavailable.
fn first_barred(occupied: &Occupied<'_, '_>, pair: SlotPair, members: &[u32]) -> Option<u32>
    requires { All (λ i. i < length occupied.now.entries) members.now }
    ensures { MatchOption result
        ((k : ℕ) → k < length members.now
        → is_shut occupied.now.problem occupied.now.entries pair.from pair.to (slice_index members.now k) ≡ false)
        (λ i. (n : ℕ) × (n < length members.now) × (slice_index members.now n ≡ i)
        × (is_shut occupied.now.problem occupied.now.entries pair.from pair.to i ≡ true)
        × ((k : ℕ) → k < n
        → is_shut occupied.now.problem occupied.now.entries pair.from pair.to (slice_index members.now k) ≡ false)) }
{
    for member in members {
        if is_barred(occupied, pair, *member) {
            return Some(*member);
        }
    }
    None
}

/// Returns the members of the chain of an entry of the first period.
fn members_of(
    alloc: Global,
    occupied: &Occupied<'_, '_>,
    pair: SlotPair,
    entry: usize,
) -> Result<Vec<u32>, AllocError>
    requires entry { entry < length occupied.now.entries }
    requires from { is_at pair.from (entry_at occupied.now.entries entry) ≡ true }
    ensures chain { IfOk result
        (λ v. IsChain occupied.now.problem occupied.now.entries pair.from pair.to entry v.items) }
    ensures rising { IfOk result (λ v. IsStrictlyIncreasing v.items) }
    ensures inside { IfOk result (λ v. All (λ i. i < length occupied.now.entries) v.items) }
{
    let entries = occupied.table().entries();
    let flags = spread(alloc, occupied.instance(), entries, pair, entry)?;
    let places = places_of(alloc, flags.as_slice())?;
    Ok(places)
}

/// Returns the chain of an entry of the first of two periods.
fn chain_between(
    alloc: Global,
    occupied: &Occupied<'_, '_>,
    pair: SlotPair,
    entry: usize,
) -> Result<Chain, ChainFault>
    requires entry { entry < length occupied.now.entries }
    requires at { is_at pair.from (entry_at occupied.now.entries entry) ≡ true }
    requires from { IsPeriod occupied.now.problem pair.from }
    requires to { IsPeriod occupied.now.problem pair.to }
    ensures { IsAnswer occupied.now.problem occupied.now.entries pair.from pair.to entry result }
{
    if is_same_slot(pair.from, pair.to) {
        return Err(ChainFault::SamePeriod);
    }
    let Ok(members) = members_of(alloc, occupied, pair, entry) else {
        return Err(ChainFault::OutOfMemory);
    };
    if let Some(member) = first_barred(occupied, pair, members.as_slice()) {
        return Err(ChainFault::Unavailable(member));
    }
    Ok(Chain { pair, members })
}

/// Returns the least set of entries that contains an entry and each entry linked to one of the set, between
/// the entry's period and another one. `OutOfMemory` is returned only for a refused allocation.
pub fn chain(
    alloc: Global,
    occupied: &Occupied<'_, '_>,
    entry: u32,
    day: u32,
    period: u32,
) -> Result<Chain, ChainFault>
    requires entry { entry < length occupied.now.entries }
    requires day { day < occupied.now.problem.days }
    requires period { period < occupied.now.problem.periods }
    ensures { IsAnswer occupied.now.problem occupied.now.entries
        (slot_of (entry_at occupied.now.entries entry)) (slot day period) entry result }
{
    let place = occupied.entry(entry);
    let from = Slot {
        day: place.day,
        period: place.period,
    };
    let to = Slot { day, period };
    chain_between(alloc, occupied, SlotPair { from, to }, entry as usize)
}
