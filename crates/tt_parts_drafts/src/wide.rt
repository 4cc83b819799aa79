//! Curricula in groups of many courses.

use crate::draft::Draft;
use std::alloc::{AllocError, Global};
use tt_instance::Instance;
use tt_parts_least::members_of;

/// The maximum number of curricula of a group.
const CURRICULA: usize = 64;

/// The number of units of a curriculum in a score.
const UNITS: u64 = 1_000;

/// Some curricula, and their courses.
#[derive(Drop)]
struct Wide {
    curricula: Vec<u32>,
    courses: Vec<u32>,
}

/// Checks whether all members of a curriculum are among some courses.
fn is_inside(instance: &Instance<'_>, curriculum: u32, courses: &[u32]) -> bool {
    members_of(instance, curriculum)
        .iter()
        .all(|course| courses.contains(course))
}

/// Returns the number of curricula that have a course.
fn count_with(instance: &Instance<'_>, curricula: &[u32], course: u32) -> usize {
    curricula
        .iter()
        .filter(|curriculum| instance.in_curriculum(**curriculum, course))
        .count()
}

/// Returns the curriculum whose courses are in most of the others.
fn seed_of(instance: &Instance<'_>, free: &[u32]) -> Option<u32> {
    let (mut found, mut most) = (None, 0);
    for curriculum in free {
        let mut count: usize = 1;
        for course in members_of(instance, *curriculum) {
            count = count.saturating_add(count_with(instance, free, *course));
        }
        if most < count {
            (found, most) = (Some(*curriculum), count);
        }
    }
    found
}

impl Wide {
    /// Adds a curriculum, and the free ones that have no other courses.
    fn take(
        &mut self,
        instance: &Instance<'_>,
        free: &[u32],
        curriculum: u32,
    ) -> Result<(), AllocError> {
        self.curricula.push(curriculum)?;
        for course in members_of(instance, curriculum) {
            if !self.courses.contains(course) {
                self.courses.push(*course)?;
            }
        }
        for other in free {
            let is_new = !self.curricula.contains(other) && self.curricula.len() < CURRICULA;
            if is_new && is_inside(instance, *other, &self.courses) {
                self.curricula.push(*other)?;
            }
        }
        Ok(())
    }

    /// Returns how many free curricula the courses have inside with those of one more, for each new course; `None` if it shares no course,
    /// or there are too many courses.
    fn score(
        &self,
        alloc: Global,
        instance: &Instance<'_>,
        free: &[u32],
        curriculum: u32,
        most: usize,
    ) -> Result<Option<u64>, AllocError> {
        let mut courses = Vec::from_slice(alloc, &self.courses)?;
        let members = members_of(instance, curriculum);
        for course in members {
            if !courses.contains(course) {
                courses.push(*course)?;
            }
        }
        let new = courses.len().saturating_sub(self.courses.len());
        if new == members.len() || most < courses.len() {
            return Ok(None);
        }
        let inside = free
            .iter()
            .filter(|other| !self.curricula.contains(*other)
                && is_inside(instance, **other, &courses))
            .count() as u64;
        Ok(inside.saturating_mul(UNITS).checked_div(new as u64))
    }

    /// Returns the free curriculum with the greatest score.
    fn next(
        &self,
        alloc: Global,
        instance: &Instance<'_>,
        free: &[u32],
        most: usize,
    ) -> Result<Option<u32>, AllocError> {
        let (mut found, mut best) = (None, 0);
        for curriculum in free {
            if self.curricula.contains(curriculum) {
                continue;
            }
            if let Some(score) = self.score(alloc, instance, free, *curriculum, most)? {
                if best <= score {
                    (found, best) = (Some(*curriculum), score);
                }
            }
        }
        Ok(found)
    }
}

/// Returns a group that grows from the free curriculum whose courses are in most of the others.
fn grow(
    alloc: Global,
    instance: &Instance<'_>,
    free: &[u32],
    most: usize,
) -> Result<Wide, AllocError> {
    let mut wide = Wide {
        curricula: Vec::new(alloc),
        courses: Vec::new(alloc),
    };
    let mut next = seed_of(instance, free);
    for _ in 0..CURRICULA {
        let Some(curriculum) = next else {
            break;
        };
        wide.take(instance, free, curriculum)?;
        if CURRICULA <= wide.curricula.len() {
            break;
        }
        next = wide.next(alloc, instance, free, most)?;
    }
    Ok(wide)
}

/// Returns all curricula in groups of at most so many courses, or of one curriculum.
pub fn widen(
    alloc: Global,
    instance: &Instance<'_>,
    most: usize,
) -> Result<Vec<Draft>, AllocError> {
    let mut free: Vec<u32> = Vec::new(alloc);
    for curriculum in 0..instance.curricula() {
        free.push(curriculum)?;
    }
    let mut drafts = Vec::new(alloc);
    for _ in 0..instance.curricula() {
        if free.is_empty() {
            break;
        }
        let wide = grow(alloc, instance, &free, most)?;
        let mut curricula = Vec::from_slice(alloc, &wide.curricula)?;
        free.retain(|curriculum| !wide.curricula.contains(curriculum));
        curricula.sort_unstable();
        drafts.push(Draft::of(alloc, curricula))?;
    }
    Ok(drafts)
}
