//! The sets of a group's courses in which no two conflict.

use crate::layout::{Course, Layout};
use std::alloc::{AllocError, Global};
use tt_instance::Instance;

/// The maximum number of sets.
const SETS: usize = 4_096;

/// Courses of which no two conflict, a bit for each; their lectures, packed and as a place; and the curricula that they meet, a bit for each.
#[derive(Clone, Copy)]
pub struct Set {
    pub courses: u32,
    pub packed: u64,
    pub place: u32,
    pub curricula: u64,
}

/// Returns the courses that conflict with a course, a bit for each.
fn conflicting(instance: &Instance<'_>, layout: &Layout, course: Course) -> u32 {
    let mut word = 0;
    for (place, other) in layout.courses.iter().enumerate() {
        if instance.conflict(course.number, other.number) {
            word |= 1 << (place % 32);
        }
    }
    word
}

/// Returns the curricula that have a course, a bit for each.
fn curricula_with(instance: &Instance<'_>, curricula: &[u32], course: Course) -> u64 {
    let mut word = 0;
    for (place, curriculum) in curricula.iter().enumerate() {
        if instance.in_curriculum(*curriculum, course.number) {
            word |= 1 << (place % 64);
        }
    }
    word
}

/// Adds a copy of each set without a conflict with a course, extended by this course.
fn add_course(
    sets: &mut Vec<Set>,
    course: Course,
    place: usize,
    conflicts: u32,
    met: u64,
) -> Result<(), AllocError> {
    for k in 0..sets.len() {
        let Some(set) = sets.get(k).copied() else {
            break;
        };
        if set.courses & conflicts == 0 {
            sets.push(Set {
                courses: set.courses | 1 << (place % 32),
                packed: set.packed | 1 << (course.shift % 64),
                place: set.place.wrapping_add(course.weight),
                curricula: set.curricula | met,
            })?;
        }
    }
    Ok(())
}

/// Returns every set of the courses in which no two conflict, or `None` if there are too many.
pub fn sets_of(
    alloc: Global,
    instance: &Instance<'_>,
    layout: &Layout,
    curricula: &[u32],
) -> Result<Option<Vec<Set>>, AllocError> {
    let mut sets = Vec::new(alloc);
    sets.push(Set {
        courses: 0,
        packed: 0,
        place: 0,
        curricula: 0,
    })?;
    for (place, course) in layout.courses.iter().enumerate() {
        let conflicts = conflicting(instance, layout, *course);
        let met = curricula_with(instance, curricula, *course);
        add_course(&mut sets, *course, place, conflicts, met)?;
        if SETS < sets.len() {
            return Ok(None);
        }
    }
    Ok(Some(sets))
}
