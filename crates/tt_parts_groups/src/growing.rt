//! Groups grown from one curriculum.

use crate::draft::{Draft, union_of};
use crate::free::Free;
use crate::group_values::GroupValues;
use std::alloc::{AllocError, Global};
use tt_instance::Instance;
use tt_parts_least::{courses_of, lectures_of, members_of};
use tt_watch::Watch;

/// The maximum number of curricula of a group.
const CURRICULA: usize = 64;

/// The smallest minimum number of days of a course whose days can cost anything.
const DAYS: u32 = 2;

/// The distance of a curriculum that adds nothing and shares nothing.
const MIDDLE: u32 = 1_000_000;

/// The maximum number of times that a course is left out if a group is too much work.
const CUTS: usize = 4;

/// Returns the distance of a curriculum from some courses: 2 for each lecture that it adds, less 1 for each that it shares. Returns `None` if it
/// shares none.
fn distance(instance: &Instance<'_>, courses: &[u32], curriculum: u32) -> Option<u32> {
    let mut distance = MIDDLE;
    let mut has_shared = false;
    for course in members_of(instance, curriculum) {
        let lectures = lectures_of(instance, *course);
        if courses.contains(course) {
            has_shared = true;
            distance = distance.saturating_sub(lectures);
        } else {
            distance = distance.saturating_add(lectures).saturating_add(lectures);
        }
    }
    if has_shared { Some(distance) } else { None }
}

/// Returns the nearest curriculum to a group that isn't in the group.
fn nearest(
    instance: &Instance<'_>,
    curricula: &[u32],
    courses: &[u32],
    among: &[u32],
) -> Option<u32> {
    let mut found = None;
    let mut best = u32::MAX;
    for curriculum in among {
        if curricula.contains(curriculum) {
            continue;
        }
        match distance(instance, courses, *curriculum) {
            Some(distance) if distance < best => {
                found = Some(*curriculum);
                best = distance;
            }
            _ => {}
        }
    }
    found
}

/// Adds the curricula all of whose members are among the courses.
fn take_inner(
    instance: &Instance<'_>,
    curricula: &mut Vec<u32>,
    courses: &[u32],
    among: &[u32],
) -> Result<(), AllocError> {
    for curriculum in among {
        let is_inner = members_of(instance, *curriculum)
            .iter()
            .all(|course| courses.contains(course));
        if is_inner && !curricula.contains(curriculum) {
            curricula.push(*curriculum)?;
        }
    }
    Ok(())
}

/// Returns the number of lectures that a course has beyond its minimum days.
fn slack_of(instance: &Instance<'_>, course: u32) -> u32 {
    if course < instance.courses() {
        instance
            .lectures(course)
            .saturating_sub(instance.min_days(course))
    } else {
        0
    }
}

/// Checks whether the days of a course can cost anything.
fn has_days(instance: &Instance<'_>, course: u32) -> bool {
    course < instance.courses()
        && DAYS <= instance.min_days(course)
        && instance.lectures(course) > 0
}

/// Returns the free courses among some whose days can cost anything, those with the least slack first.
fn free_days<W: Watch>(
    values: &GroupValues<'_, '_, W>,
    free: &Free,
    courses: &[u32],
) -> Result<Vec<u32>, AllocError> {
    let instance = values.instance;
    let mut days = Vec::new(values.alloc);
    for course in courses {
        if free.has_course(*course) && has_days(instance, *course) {
            days.push(*course)?;
        }
    }
    days.sort_unstable_by_key(|course| (slack_of(instance, *course), *course));
    Ok(days)
}

/// Returns the curricula of a group around a seed, as many as the states allow.
fn grown_curricula<W: Watch>(
    values: &GroupValues<'_, '_, W>,
    free: &Free,
    seed: u32,
    among: &[u32],
) -> Result<Vec<u32>, AllocError> {
    let (alloc, instance) = (values.alloc, values.instance);
    let mut curricula = Vec::new(alloc);
    let mut good = Vec::new(alloc);
    let mut next = Some(seed);
    for _ in 0..CURRICULA {
        let Some(curriculum) = next else {
            break;
        };
        curricula.push(curriculum)?;
        let courses = courses_of(alloc, instance, &curricula, &[])?;
        take_inner(instance, &mut curricula, &courses, among)?;
        let mut days = free_days(values, free, &courses)?;
        days.retain(|course| slack_of(instance, *course) == 0);
        if values.states_of(&curricula, &days)?.is_none() {
            break;
        }
        good = Vec::from_slice(alloc, &curricula)?;
        next = nearest(instance, &curricula, &courses, among);
    }
    good.sort_unstable();
    Ok(good)
}

/// Returns a draft of these curricula with the days of its own courses and as many free ones as the states allow.
pub fn with_days<W: Watch>(
    values: &mut GroupValues<'_, '_, W>,
    free: &Free,
    curricula: &[u32],
    own: &[u32],
    enough: u64,
) -> Result<Option<Draft>, AllocError> {
    let courses = courses_of(values.alloc, values.instance, curricula, own)?;
    let mut days = free_days(values, free, &courses)?;
    for _ in 0..=days.len() {
        let all = union_of(values.alloc, own, &days)?;
        if let Some(draft) = values.draft(curricula, all, enough)? {
            return Ok(Some(draft));
        }
        if values.work.is_used_up() {
            break;
        }
        let _ = days.pop();
    }
    Ok(None)
}

/// Returns the course that is in the fewest of the curricula.
fn rarest(instance: &Instance<'_>, courses: &[u32], curricula: &[u32]) -> Option<u32> {
    courses.iter().copied().min_by_key(|course| {
        curricula
            .iter()
            .filter(|curriculum| instance.in_curriculum(**curriculum, *course))
            .count()
    })
}

/// Returns a draft grown from a seed. If it is too much work, the rarest courses are left out.
pub fn grow<W: Watch>(
    values: &mut GroupValues<'_, '_, W>,
    free: &Free,
    seed: u32,
    among: &[u32],
) -> Result<Option<Draft>, AllocError> {
    let instance = values.instance;
    let mut curricula = grown_curricula(values, free, seed, among)?;
    for _ in 0..CUTS {
        if curricula.is_empty() {
            break;
        }
        if let Some(draft) = with_days(values, free, &curricula, &[], 0)? {
            return Ok(Some(draft));
        }
        let courses = courses_of(values.alloc, instance, &curricula, &[])?;
        if let Some(course) = rarest(instance, &courses, &curricula) {
            curricula.retain(|curriculum| !instance.in_curriculum(*curriculum, course));
        }
    }
    Ok(None)
}
