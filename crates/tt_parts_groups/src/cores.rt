//! Removes targets that groups don't need.

use crate::draft::{Draft, without};
use crate::free::Free;
use crate::group_values::GroupValues;
use crate::order::shuffle;
use rand_pcg::Pcg32;
use std::alloc::AllocError;
use tt_parts_least::courses_of;
use tt_watch::Watch;

/// Removes the courses without which a draft has the same value.
fn leave_courses<W: Watch>(
    values: &mut GroupValues<'_, '_, W>,
    draft: &mut Draft,
    rng: &mut Pcg32,
) -> Result<(), AllocError> {
    let mut order = Vec::from_slice(values.alloc, &draft.courses)?;
    shuffle(&mut order, rng);
    for course in &order {
        let courses = without(values.alloc, &draft.courses, *course)?;
        if values.is_worth(&draft.curricula, &courses, draft.value)? {
            draft.courses = courses;
        }
    }
    Ok(())
}

/// Removes the curricula without which a draft has the same value.
fn leave_curricula<W: Watch>(
    values: &mut GroupValues<'_, '_, W>,
    draft: &mut Draft,
    rng: &mut Pcg32,
) -> Result<(), AllocError> {
    let mut order = Vec::from_slice(values.alloc, &draft.curricula)?;
    shuffle(&mut order, rng);
    for curriculum in &order {
        let curricula = without(values.alloc, &draft.curricula, *curriculum)?;
        if values.is_worth(&curricula, &draft.courses, draft.value)? {
            draft.curricula = curricula;
        }
    }
    Ok(())
}

/// Updates the data of a draft after some of its targets were removed.
fn recount<W: Watch>(values: &GroupValues<'_, '_, W>, draft: &mut Draft) -> Result<(), AllocError> {
    let (alloc, instance) = (values.alloc, values.instance);
    draft.concerned = courses_of(alloc, instance, &draft.curricula, &draft.courses)?;
    if let Some(states) = values.states_of(&draft.curricula, &draft.courses)? {
        draft.states = states;
    }
    Ok(())
}

/// Removes the courses without which a draft has the same value, and takes its other targets.
pub fn reduce_courses<W: Watch>(
    values: &mut GroupValues<'_, '_, W>,
    free: &mut Free,
    draft: &mut Draft,
    rng: &mut Pcg32,
) -> Result<(), AllocError> {
    free.give_back(draft);
    leave_courses(values, draft, rng)?;
    recount(values, draft)?;
    free.take(draft);
    Ok(())
}

/// Removes all targets without which a draft has the same value, and takes the others.
pub fn reduce<W: Watch>(
    values: &mut GroupValues<'_, '_, W>,
    free: &mut Free,
    draft: &mut Draft,
    rng: &mut Pcg32,
) -> Result<(), AllocError> {
    free.give_back(draft);
    if !draft.is_core {
        leave_courses(values, draft, rng)?;
        leave_curricula(values, draft, rng)?;
        recount(values, draft)?;
        draft.is_core = !values.work.is_used_up();
    }
    free.take(draft);
    Ok(())
}
