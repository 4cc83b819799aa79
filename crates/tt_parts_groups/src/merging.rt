//! Groups that have a higher value together.

ghost use Rattle.std.specs.Prelude.{◌<◌, length, IfSome};

use crate::cores::reduce_courses;
use crate::draft::{Draft, has_common, union_of};
use crate::free::Free;
use crate::group_values::GroupValues;
use crate::growing::with_days;
use rand_pcg::Pcg32;
use std::alloc::{AllocError, Global};
use tt_watch::Watch;

/// Two drafts by their indices, and their merger, if it has a higher value. The pair of a draft with itself takes free days.
#[derive(Drop)]
pub struct Pair {
    first: usize,
    second: usize,
    merged: Option<Draft>,
    gain: u64,
    is_tried: bool,
}

impl Pair {
    fn new(first: usize, second: usize) -> Pair {
        Pair {
            first,
            second,
            merged: None,
            gain: 0,
            is_tried: false,
        }
    }

    fn has(&self, place: usize) -> bool {
        self.first == place || self.second == place
    }

    /// Returns the rank of the merger: the gain for each doubling of the states.
    fn rank(&self) -> u64 {
        match &self.merged {
            Some(draft) => {
                let doublings = u64::from(u32::BITS - draft.states.leading_zeros());
                self.gain.saturating_mul(1_000) / (doublings + 2)
            }
            None => 0,
        }
    }
}

/// Returns all pairs of drafts that have a course in common.
pub fn pairs_of(alloc: Global, drafts: &[Draft]) -> Result<Vec<Pair>, AllocError> {
    let mut pairs = Vec::new(alloc);
    for (second, other) in drafts.iter().enumerate() {
        for (first, draft) in drafts.iter().enumerate().take(second + 1) {
            if has_common(&draft.concerned, &other.concerned) {
                pairs.push(Pair::new(first, second))?;
            }
        }
    }
    Ok(pairs)
}

/// Computes the merger of two drafts.
fn try_pair<W: Watch>(
    values: &mut GroupValues<'_, '_, W>,
    free: &Free,
    drafts: &[Draft],
    pair: &mut Pair,
) -> Result<(), AllocError> {
    pair.is_tried = true;
    pair.merged = None;
    let (Some(first), Some(second)) = (drafts.get(pair.first), drafts.get(pair.second)) else {
        return Ok(());
    };
    let mut old = first.value;
    if pair.first != pair.second {
        old = old.saturating_add(second.value);
    }
    let curricula = union_of(values.alloc, &first.curricula, &second.curricula)?;
    let own = union_of(values.alloc, &first.courses, &second.courses)?;
    let merged = with_days(values, free, &curricula, &own, old)?;
    pair.merged = merged.filter(|draft| old < draft.value);
    if let Some(draft) = &pair.merged {
        pair.gain = draft.value.saturating_sub(old);
    }
    Ok(())
}

/// Returns the best of all pairs, or `None` if no merger gains anything.
fn best_of(pairs: &[Pair]) -> Option<usize>
    ensures { IfSome result (λ k. k < length pairs.now) }
{
    let mut found = None;
    let mut best = 0;
    for (place, pair) in pairs.iter().enumerate() {
        if best < pair.rank() {
            found = Some(place);
            best = pair.rank();
        }
    }
    found
}

/// Updates the pairs after a draft has changed and another has been removed.
fn renew(
    pairs: &mut Vec<Pair>,
    drafts: &[Draft],
    changed: usize,
    gone: usize,
) -> Result<(), AllocError> {
    pairs.retain(|pair| !pair.has(changed) && !pair.has(gone));
    let Some(draft) = drafts.get(changed) else {
        return Ok(());
    };
    for pair in pairs.iter_mut() {
        if pair
            .merged
            .as_ref()
            .is_some_and(|merged| has_common(&merged.courses, &draft.courses))
        {
            pair.merged = None;
            pair.is_tried = false;
        }
    }
    for (place, other) in drafts.iter().enumerate() {
        if has_common(&draft.concerned, &other.concerned) {
            pairs.push(Pair::new(place, changed))?;
        }
    }
    Ok(())
}

/// Merges the best pair of drafts among those that are tried before the search is ended. Returns `false` if no pair gains anything.
pub fn merge_best<W: Watch>(
    values: &mut GroupValues<'_, '_, W>,
    free: &mut Free,
    drafts: &mut Vec<Draft>,
    pairs: &mut Vec<Pair>,
    rng: &mut Pcg32,
) -> Result<bool, AllocError> {
    for pair in pairs.iter_mut() {
        if values.work.is_ended() {
            break;
        }
        if !pair.is_tried {
            try_pair(values, free, drafts, pair)?;
        }
    }
    let Some(best) = best_of(pairs) else {
        return Ok(false);
    };
    let Pair {
        first,
        second,
        merged,
        ..
    } = pairs.swap_remove(best);
    let Some(mut merged) = merged else {
        return Ok(false);
    };
    reduce_courses(values, free, &mut merged, rng)?;
    if let Some(draft) = drafts.get_mut(second) {
        *draft = Draft::empty(values.alloc);
    }
    if let Some(draft) = drafts.get_mut(first) {
        *draft = merged;
    }
    renew(pairs, drafts, first, second)?;
    Ok(true)
}
