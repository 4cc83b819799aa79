//! Steps to choose from.

ghost use Rattle.std.specs.Prelude.{◌≡◌, ◌<◌, length, IfSome};
ghost use Rattle.tt_instance.specs.Cells.{InRange};
ghost use Rattle.tt_moves.specs.Steps.{CanStep, first_of};

use crate::cell_entries::CellEntries;
use crate::open::Open;
use crate::places::{any_slot, can_change_places, slot_of};
use crate::random::below;
use crate::violations::has_cost_or_fault;
use rand_pcg::Pcg32;
use tt_instance::Slot;
use tt_moves::Step;
use tt_occupancy::Occupied;

/// The number of periods that are drawn until a step breaks no hard rule.
const TRIES: u32 = 8;

/// The number of entries that are checked to find one that breaks a rule or has a cost.
const LOOKS: u32 = 4;

/// The number of steps out of ten that change only the room, and the number that change only the period. The others change both.
const ROOMS_OF_TEN: u32 = 2;

const PERIODS_OF_TEN: u32 = 3;

/// Returns a random entry.
fn any_entry(occupied: &Occupied<'_, '_>, rng: &mut Pcg32) -> u32
    requires { 0 < length occupied.now.entries }
    ensures { result < length occupied.now.entries }
{
    below(rng, occupied.table().len() as u32)
}

/// Returns an entry that breaks a rule or has a cost, if one is found soon.
fn costly_entry(occupied: &Occupied<'_, '_>, rng: &mut Pcg32) -> u32
    requires { 0 < length occupied.now.entries }
    ensures { result < length occupied.now.entries }
{
    for _ in 0..LOOKS {
        let index = any_entry(occupied, rng);
        if has_cost_or_fault(occupied, occupied.entry(index)) {
            return index;
        }
    }
    any_entry(occupied, rng)
}

/// Returns a random entry; half of the time one that breaks a rule or has a cost.
pub fn entry_to_move(occupied: &Occupied<'_, '_>, rng: &mut Pcg32) -> u32
    requires { 0 < length occupied.now.entries }
    ensures { result < length occupied.now.entries }
{
    if below(rng, 2) == 0 {
        costly_entry(occupied, rng)
    } else {
        any_entry(occupied, rng)
    }
}

/// Returns the step of an entry to a cell: if another entry is known to be in it, the two change places.
fn step_to(
    occupied: &Occupied<'_, '_>,
    cells: &CellEntries,
    entry: u32,
    room: u32,
    slot: Slot,
) -> Step
    requires entry { entry < length occupied.now.entries }
    requires room { room < length occupied.now.problem.rooms }
    requires day { slot.day < occupied.now.problem.days }
    requires period { slot.period < occupied.now.problem.periods }
    ensures possible { CanStep occupied.now.problem occupied.now.entries result }
    ensures first { first_of result ≡ entry }
{
    match cells.entry_in(room, slot) {
        Some(second) if (second as usize) < occupied.table().len() => Step::Swap {
            first: entry,
            second,
        },
        _ => Step::Move {
            entry,
            room,
            day: slot.day,
            period: slot.period,
        },
    }
}

/// Checks that the entries of a step to an open period break no hard rule in their new places.
fn is_open(occupied: &Occupied<'_, '_>, step: Step, is_free: bool) -> bool
    requires { CanStep occupied.now.problem occupied.now.entries step }
{
    match step {
        Step::Move { .. } => is_free,
        Step::Swap { first, second } => can_change_places(
            occupied,
            occupied.entry(first),
            occupied.entry(second),
            is_free,
        ),
    }
}

/// Returns a step of an entry to a room in another period, if one that breaks no hard rule is found soon. If the timetable
/// already breaks one, it may be any step of this kind.
fn sample_period(
    occupied: &Occupied<'_, '_>,
    cells: &CellEntries,
    open: &Open,
    rng: &mut Pcg32,
    entry: u32,
    room: u32,
) -> Option<Step>
    requires entry { entry < length occupied.now.entries }
    requires room { room < length occupied.now.problem.rooms }
    ensures possible { IfSome result (CanStep occupied.now.problem occupied.now.entries) }
    ensures first { IfSome result (λ s. first_of s ≡ entry) }
{
    for _ in 0..TRIES {
        if let Some(place) = open.draw(occupied.instance(), rng) {
            let step = step_to(occupied, cells, entry, room, place.slot);
            if is_open(occupied, step, place.is_free) {
                return Some(step);
            }
        }
    }
    if occupied.score().feasible() {
        return None;
    }
    Some(step_to(
        occupied,
        cells,
        entry,
        room,
        any_slot(occupied.instance(), rng),
    ))
}

/// Returns a step of an entry that mostly breaks no hard rule, from the periods that are open for it.
pub fn sample(
    occupied: &Occupied<'_, '_>,
    cells: &CellEntries,
    open: &Open,
    rng: &mut Pcg32,
    entry: u32,
) -> Option<Step>
    requires { entry < length occupied.now.entries }
    ensures possible { IfSome result (CanStep occupied.now.problem occupied.now.entries) }
    ensures first { IfSome result (λ s. first_of s ≡ entry) }
{
    let from = occupied.entry(entry);
    let kind = below(rng, 10);
    let room = below(rng, occupied.instance().rooms());
    if kind < ROOMS_OF_TEN {
        if room == from.room {
            return None;
        }
        return Some(step_to(occupied, cells, entry, room, slot_of(from)));
    }
    let room = if kind < ROOMS_OF_TEN + PERIODS_OF_TEN {
        from.room
    } else {
        room
    };
    sample_period(occupied, cells, open, rng, entry, room)
}
