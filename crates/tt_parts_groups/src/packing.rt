//! Groups packed in turn: each time the one with the highest value.

ghost use Rattle.std.specs.Prelude.{◌<◌, length, IfSome};

use crate::cores::reduce;
use crate::draft::Draft;
use crate::free::Free;
use crate::group_values::GroupValues;
use crate::growing::grow;
use rand_pcg::Pcg32;
use std::alloc::{AllocError, Global};
use tt_watch::Watch;

/// A curriculum that a group can grow from, and the group once it has grown.
#[derive(Drop)]
pub struct Seed {
    curriculum: u32,
    grown: Option<Draft>,
    is_grown: bool,
}

/// Returns the seed whose group has the highest value, or `None` if no value is above 0.
fn best_of(seeds: &[Seed]) -> Option<usize>
    ensures { IfSome result (λ k. k < length seeds.now) }
{
    let mut found = None;
    let mut best = 0;
    for (place, seed) in seeds.iter().enumerate() {
        if let Some(draft) = &seed.grown {
            if best < draft.value {
                found = Some(place);
                best = draft.value;
            }
        }
    }
    found
}

/// Grows a group from each seed that has none, until the search is ended.
fn grow_all<W: Watch>(
    values: &mut GroupValues<'_, '_, W>,
    free: &Free,
    seeds: &mut [Seed],
) -> Result<(), AllocError> {
    let among = free.curricula(values.alloc)?;
    for seed in seeds {
        if values.work.is_ended() {
            break;
        }
        if !seed.is_grown {
            seed.grown = grow(values, free, seed.curriculum, &among)?;
            seed.is_grown = true;
        }
    }
    Ok(())
}

/// Drops the groups that have a target in common with a draft, and the seeds that the draft has taken.
fn forget(free: &Free, seeds: &mut Vec<Seed>, draft: &Draft) {
    seeds.retain(|seed| free.has_curriculum(seed.curriculum));
    for seed in seeds.iter_mut() {
        if seed
            .grown
            .as_ref()
            .is_some_and(|grown| grown.has_common_target(draft))
        {
            seed.grown = None;
            seed.is_grown = false;
        }
    }
}

/// Returns a seed for each free curriculum.
pub fn seeds_of(alloc: Global, free: &Free) -> Result<Vec<Seed>, AllocError> {
    let mut seeds = Vec::new(alloc);
    for curriculum in free.curricula(alloc)? {
        seeds.push(Seed {
            curriculum,
            grown: None,
            is_grown: false,
        })?;
    }
    Ok(seeds)
}

/// Returns the group of free targets with the highest value among those that have grown, without the targets that it doesn't need. Returns
/// `None` if no value is above 0.
pub fn pack_best<W: Watch>(
    values: &mut GroupValues<'_, '_, W>,
    free: &mut Free,
    seeds: &mut Vec<Seed>,
    rng: &mut Pcg32,
) -> Result<Option<Draft>, AllocError> {
    grow_all(values, free, seeds)?;
    let Some(best) = best_of(seeds) else {
        return Ok(None);
    };
    let Seed { grown, .. } = seeds.swap_remove(best);
    let Some(mut draft) = grown else {
        return Ok(None);
    };
    reduce(values, free, &mut draft, rng)?;
    forget(free, seeds, &draft);
    Ok(Some(draft))
}
