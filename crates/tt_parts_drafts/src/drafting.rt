//! Which working days each group has, and which lectures it counts.

use crate::draft::Draft;
use std::alloc::{AllocError, Global};
use tt_instance::Instance;
use tt_parts_least::{courses_of, lectures_of};

/// The smallest minimum number of days of a course whose days can cost anything.
const DAYS: u32 = 2;

/// Returns the minimum days of a course; 0 if the course doesn't exist.
fn min_days_of(instance: &Instance<'_>, course: u32) -> u32 {
    if course < instance.courses() {
        instance.min_days(course)
    } else {
        0
    }
}

/// Returns the number of the group's curricula that have a course.
fn curricula_with(instance: &Instance<'_>, draft: &Draft, course: u32) -> usize {
    draft
        .curricula
        .iter()
        .filter(|curriculum| instance.in_curriculum(**curriculum, course))
        .count()
}

/// Gives the working days of each course to the group with most of its curricula; a course without curricula gets a group of its own.
pub fn give_days(
    alloc: Global,
    instance: &Instance<'_>,
    drafts: &mut Vec<Draft>,
) -> Result<(), AllocError> {
    for course in 0..instance.courses() {
        if min_days_of(instance, course) < DAYS || lectures_of(instance, course) == 0 {
            continue;
        }
        let (mut best, mut most) = (0, 0);
        for (index, draft) in drafts.iter().enumerate() {
            let count = curricula_with(instance, draft, course);
            if most < count {
                (best, most) = (index, count);
            }
        }
        if most == 0 {
            drafts.push(Draft::of(alloc, Vec::new(alloc)))?;
            best = drafts.len().saturating_sub(1);
        }
        if let Some(draft) = drafts.get_mut(best) {
            draft.courses.push(course)?;
        }
    }
    Ok(())
}

/// Returns the number of states of a week that are counted anyway: those of further lectures.
fn states_of_days(instance: &Instance<'_>, draft: &Draft) -> u64 {
    let mut states: u64 = 1;
    for course in &draft.courses {
        let slack = lectures_of(instance, *course).saturating_sub(min_days_of(instance, *course));
        states = states.saturating_mul(u64::from(slack).saturating_add(1));
    }
    states
}

/// Counts the lectures of a group's courses, those with the fewest first, as far as there are at most so many states.
pub fn count_lectures(
    alloc: Global,
    instance: &Instance<'_>,
    draft: &mut Draft,
    most: u64,
) -> Result<(), AllocError> {
    let mut courses = courses_of(alloc, instance, &draft.curricula, &draft.courses)?;
    courses.sort_unstable_by_key(|course| (lectures_of(instance, *course), *course));
    let mut states = states_of_days(instance, draft);
    draft.uncounted.clear();
    for course in &courses {
        let values = u64::from(lectures_of(instance, *course)).saturating_add(1);
        let next = states.saturating_mul(values);
        if next <= most || values == 1 {
            states = next;
        } else {
            draft.uncounted.push(*course)?;
        }
    }
    Ok(())
}
