//! Texts about an instance, and about a solution of it.

use crate::advice::put_advice;
use crate::scored::put_score;
use std::alloc::{AllocError, Global};
use tt_inspect_words::{Counts, put_summary};
use tt_instance::Instance;
use tt_rules::Score;
use tt_table::Timetable;

/// The text, and whether it reports nothing that is impossible or broken.
#[derive(Debug, Drop)]
pub struct Inspected {
    pub text: String,
    pub sound: bool,
}

/// Describes the contents of an instance, and what should be checked.
pub fn inspect_instance(alloc: Global, instance: &Instance<'_>) -> Result<Inspected, AllocError> {
    let counts = Counts::of(alloc, instance)?;
    let mut text = String::new(alloc);
    put_summary(&mut text, instance, &counts)?;
    let cannot_be = put_advice(&mut text, instance, &counts)?;
    Ok(Inspected {
        text,
        sound: !cannot_be,
    })
}

/// Describes the contents of an instance, what should be checked, and what a solution with this score breaks and costs.
pub fn inspect_solution(
    alloc: Global,
    instance: &Instance<'_>,
    table: &Timetable,
    score: &Score,
) -> Result<Inspected, AllocError> {
    let Inspected { mut text, sound } = inspect_instance(alloc, instance)?;
    put_score(&mut text, instance, table, score)?;
    Ok(Inspected {
        text,
        sound: sound && score.feasible(),
    })
}
