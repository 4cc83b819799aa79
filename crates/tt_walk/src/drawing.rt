//! The choice of a step.

ghost use Rattle.std.specs.Prelude.{◌<◌, length, IfSome};
ghost use Rattle.tt_moves.specs.Pricing.{IsEntryCost};
ghost use Rattle.tt_moves.specs.Steps.{CanStep, first_of};

use crate::acceptance::is_accepted;
use crate::cell_entries::CellEntries;
use crate::cooling::Cooling;
use crate::open::Open;
use crate::sampling::{entry_to_move, sample};
use rand_pcg::Pcg32;
use tt_moves::{Change, EntryCost, Step, change_within, cost_change, entry_cost};
use tt_occupancy::Occupied;

/// The number of consecutive samples that are steps of one entry.
pub const SAMPLES_AN_ENTRY: u64 = 8;

/// Returns the changes that a step would make, unless it would break more hard rules. If the timetable breaks none, a sample is assumed
/// to break none either.
fn allowed_change(
    occupied: &Occupied<'_, '_>,
    step: Step,
    before: EntryCost,
    is_feasible: bool,
) -> Option<Change>
    requires step { CanStep occupied.now.problem occupied.now.entries step }
    requires before { IsEntryCost occupied.now.problem occupied.now.entries (first_of step) before }
{
    if is_feasible {
        Some(Change {
            hard: 0,
            cost: cost_change(occupied, step, before),
        })
    } else {
        change_within(occupied, step, 0)
    }
}

/// Returns the first of some steps of an entry that is accepted, if there is one.
fn draw_of(
    occupied: &Occupied<'_, '_>,
    cells: &CellEntries,
    open: &Open,
    rng: &mut Pcg32,
    cooling: &mut Cooling,
    entry: u32,
) -> Option<Step>
    requires { entry < length occupied.now.entries }
    ensures { IfSome result (CanStep occupied.now.problem occupied.now.entries) }
{
    let (temperature, level) = (cooling.temperature(), cooling.level());
    let is_feasible = occupied.score().feasible();
    let before = entry_cost(occupied, entry);
    for _ in 0..cooling.max_samples().min(SAMPLES_AN_ENTRY) {
        cooling.sample();
        if let Some(step) = sample(occupied, cells, open, rng, entry) {
            if let Some(change) = allowed_change(occupied, step, before, is_feasible) {
                if is_accepted(rng, temperature, level, change) {
                    return Some(step);
                }
            }
        }
    }
    None
}

/// Returns the first of some steps that is accepted, if there is one.
pub fn draw(
    occupied: &Occupied<'_, '_>,
    cells: &CellEntries,
    open: &mut Open,
    rng: &mut Pcg32,
    cooling: &mut Cooling,
) -> Option<Step>
    requires { 0 < length occupied.now.entries }
    ensures { IfSome result (CanStep occupied.now.problem occupied.now.entries) }
{
    cooling.draw();
    for _ in 0..cooling.max_samples().div_ceil(SAMPLES_AN_ENTRY) {
        let entry = entry_to_move(occupied, rng);
        open.find(occupied, occupied.entry(entry));
        if let Some(step) = draw_of(occupied, cells, open, rng, cooling, entry) {
            return Some(step);
        }
    }
    None
}
