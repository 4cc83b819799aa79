//! The test whether a timetable seems to be near the best.

ghost use Rattle.std.specs.Prelude.{◌≡◌, ◌<◌, ◌⊎◌, true, false, length};
ghost use Rattle.tt_rules.specs.Score.{hard};
ghost use Rattle.tt_walk.specs.Inner.Settled.{CanFall};

use crate::cell_entries::CellEntries;
use crate::drawing::SAMPLES_AN_ENTRY;
use crate::open::Open;
use crate::sampling::{entry_to_move, sample};
use crate::walking::Walker;
use rand_pcg::Pcg32;
use tt_moves::{cost_change, entry_cost, lowers};
use tt_occupancy::Occupied;

/// The number of entries that are checked.
const ENTRIES_LOOKED_AT: u32 = 200;

/// Checks whether one of some samples of an entry lowers a timetable that breaks no hard rule.
fn has_lowering_sample(
    occupied: &Occupied<'_, '_>,
    cells: &CellEntries,
    open: &Open,
    rng: &mut Pcg32,
    entry: u32,
) -> bool
    requires { entry < length occupied.now.entries }
    ensures { result ≡ true → CanFall occupied.now.problem occupied.now.entries }
{
    let before = entry_cost(occupied, entry);
    for _ in 0..SAMPLES_AN_ENTRY {
        if let Some(step) = sample(occupied, cells, open, rng, entry) {
            if cost_change(occupied, step, before) < 0 && lowers(occupied, step) {
                return true;
            }
        }
    }
    false
}

/// Checks that the timetable with which a walker began breaks no hard rule, and that none of the samples tried
/// lowers it. No memory is allocated.
pub fn is_settled(occupied: &Occupied<'_, '_>, walker: &mut Walker) -> bool
    requires { 0 < length occupied.now.entries }
    ensures feasible { result ≡ true → hard occupied.now.problem occupied.now.entries ≡ 0 }
    ensures unsettled { result ≡ false → (0 < hard occupied.now.problem occupied.now.entries)
        ⊎ CanFall occupied.now.problem occupied.now.entries }
{
    if !occupied.score().feasible() {
        return false;
    }
    for _ in 0..ENTRIES_LOOKED_AT {
        let entry = entry_to_move(occupied, &mut walker.rng);
        walker.open.find(occupied, occupied.entry(entry));
        if has_lowering_sample(
            occupied,
            &walker.cells,
            &walker.open,
            &mut walker.rng,
            entry,
        ) {
            return false;
        }
    }
    true
}
