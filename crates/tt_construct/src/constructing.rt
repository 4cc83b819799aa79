//! A first timetable.

ghost use Rattle.std.specs.Prelude.{◌<◌, length, IfOk};
ghost use Rattle.tt_construct.specs.Constructed.{IsConstructed};

use crate::filling::fill;
use crate::instance_data::InstanceData;
use crate::planning::Plan;
use crate::repairing::repair;
use rand_core::SeedableRng;
use rand_pcg::Pcg32;
use std::alloc::{AllocError, Global};
use tt_instance::Instance;
use tt_rules::score;
use tt_table::Timetable;

/// The maximum number of rounds; each places all lectures again.
const MOST_ROUNDS: usize = 24;

/// The maximum number of rounds in a very large instance.
const LEAST_ROUNDS: usize = 1;

/// The limit on the work of all rounds together. In a round the next lecture is chosen among all courses, and its place among all rooms and
/// periods.
const WORK: usize = 100_000_000;

/// Returns the maximum number of rounds for this instance.
fn rounds(data: &InstanceData) -> usize {
    let places = (data.slots as usize).saturating_mul(data.room_count as usize);
    let choices = places.saturating_add(data.courses.len());
    let round = data.lectures.saturating_mul(choices);
    match WORK.checked_div(round) {
        None => MOST_ROUNDS,
        Some(rounds) => rounds.clamp(LEAST_ROUNDS, MOST_ROUNDS),
    }
}

/// Returns the timetable after the repair of a plan, or the best one so far if it breaks no more hard rules.
fn best_after_repair(
    alloc: Global,
    instance: &Instance<'_>,
    data: &InstanceData,
    plan: &Plan,
    seed: u64,
    best: Timetable,
) -> Result<Timetable, AllocError>
    requires rooms { 0 < length instance.now.rooms }
    requires constructed { IsConstructed instance.now best }
    ensures { IfOk result (IsConstructed instance.now) }
{
    let least = score(instance, &best).hard();
    if least == 0 {
        return Ok(best);
    }
    let Some(places) = repair(alloc, instance, data, &plan.places, seed)? else {
        return Ok(best);
    };
    let table = fill(alloc, instance, &places)?;
    if score(instance, &table).hard() < least {
        Ok(table)
    } else {
        Ok(best)
    }
}

/// Places all lectures again until no hard rule is broken, and repairs the last plan if no round gets there. Returns the best timetable.
fn best_of_rounds(
    alloc: Global,
    instance: &Instance<'_>,
    seed: u64,
) -> Result<Timetable, AllocError>
    requires { 0 < length instance.now.rooms }
    ensures { IfOk result (IsConstructed instance.now) }
{
    let mut rng = Pcg32::seed_from_u64(seed);
    let data = InstanceData::new(alloc, instance)?;
    let mut plan = Plan::new(alloc, &data)?;
    let mut best = fill(alloc, instance, &plan.places)?;
    let mut least = score(instance, &best).hard();
    for _ in 0..rounds(&data) {
        if least == 0 {
            break;
        }
        plan.renew(alloc, instance, &data, &mut rng)?;
        let table = fill(alloc, instance, &plan.places)?;
        let hard = score(instance, &table).hard();
        if hard < least {
            best = table;
            least = hard;
        }
    }
    best_after_repair(alloc, instance, &data, &plan, seed, best)
}

/// Returns a timetable with the lectures of each course, from a seed. It breaks few hard rules, mostly none, and
/// has a low cost; none of this is proved. Without rooms it has no entries.
pub fn construct(alloc: Global, instance: &Instance<'_>, seed: u64) -> Result<Timetable, AllocError>
    ensures { IfOk result (IsConstructed instance.now) }
{
    if instance.rooms() == 0 {
        return Ok(Timetable::new(alloc));
    }
    best_of_rounds(alloc, instance, seed)
}
