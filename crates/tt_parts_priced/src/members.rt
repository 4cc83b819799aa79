//! The courses of a group.

use std::alloc::{AllocError, Global};
use tt_instance::Instance;

/// A course of a group: a lecture of it in a packed word of a day, the courses of the group that conflict with it, and the curricula of the
/// group that have it, a bit for each.
#[derive(Clone, Copy, Debug)]
pub struct Member {
    pub course: u32,
    pub unit: u64,
    pub conflicts: u64,
    pub curricula: u64,
}

/// Returns the courses that conflict with a course, a bit for each.
fn conflicts_of(instance: &Instance<'_>, courses: &[u32], course: u32) -> u64 {
    let mut word = 0;
    for (place, other) in courses.iter().enumerate() {
        if instance.conflict(course, *other) {
            word |= 1 << (place % 64);
        }
    }
    word
}

/// Returns the curricula that have a course, a bit for each.
fn curricula_with(instance: &Instance<'_>, curricula: &[u32], course: u32) -> u64 {
    let mut word = 0;
    for (place, curriculum) in curricula.iter().enumerate() {
        if instance.in_curriculum(*curriculum, course) {
            word |= 1 << (place % 64);
        }
    }
    word
}

/// Returns the courses of a group. A lecture of each is a unit of a packed word.
pub fn members_of_group(
    alloc: Global,
    instance: &Instance<'_>,
    courses: &[u32],
    units: &[u64],
    curricula: &[u32],
) -> Result<Vec<Member>, AllocError> {
    let mut members = Vec::new(alloc);
    for (course, unit) in courses.iter().zip(units) {
        members.push(Member {
            course: *course,
            unit: *unit,
            conflicts: conflicts_of(instance, courses, *course),
            curricula: curricula_with(instance, curricula, *course),
        })?;
    }
    Ok(members)
}
