//! The cost of each target in a known timetable.

use std::alloc::{AllocError, Global};
use tt_instance::{ISOLATED_COST, Instance, MISSING_DAY_COST};
use tt_table::Entry;

/// The cost of each curriculum and each course in the timetable; without a timetable nothing is known.
#[derive(Drop)]
pub struct Guide {
    curricula: Vec<u64>,
    courses: Vec<u64>,
    is_there: bool,
}

/// Returns the cost of a curriculum on a day in a timetable.
fn day_cost(instance: &Instance<'_>, entries: &[Entry], curriculum: u32, day: u32) -> u64 {
    let mut taught: u64 = 0;
    for entry in entries {
        if entry.day == day && instance.in_curriculum(curriculum, entry.course) {
            taught |= 1 << (entry.period % u64::BITS);
        }
    }
    let singles = taught & !(taught << 1) & !(taught >> 1);
    u64::from(ISOLATED_COST) * u64::from(singles.count_ones())
}

/// Returns the cost of a curriculum in a timetable.
fn curriculum_cost(instance: &Instance<'_>, entries: &[Entry], curriculum: u32) -> u64 {
    let mut cost: u64 = 0;
    for day in 0..instance.days() {
        cost = cost.saturating_add(day_cost(instance, entries, curriculum, day));
    }
    cost
}

/// Returns the cost of a course in a timetable.
fn course_cost(instance: &Instance<'_>, entries: &[Entry], course: u32) -> u64 {
    if instance.courses() <= course {
        return 0;
    }
    let mut taught: u64 = 0;
    for entry in entries {
        if entry.course == course {
            taught |= 1 << (entry.day % u64::BITS);
        }
    }
    let days = u64::from(taught.count_ones());
    let missing = u64::from(instance.min_days(course)).saturating_sub(days);
    u64::from(MISSING_DAY_COST).saturating_mul(missing)
}

/// Returns the sum of the costs of some numbers.
fn sum_of(costs: &[u64], numbers: &[u32]) -> u64 {
    let mut sum: u64 = 0;
    for number in numbers {
        sum = sum.saturating_add(costs.get(*number as usize).copied().unwrap_or(0));
    }
    sum
}

impl Guide {
    /// Returns the costs in a timetable with these entries; no entries mean no timetable.
    pub fn new(
        alloc: Global,
        instance: &Instance<'_>,
        entries: &[Entry],
    ) -> Result<Guide, AllocError> {
        let mut curricula = Vec::new(alloc);
        for curriculum in 0..instance.curricula() {
            curricula.push(curriculum_cost(instance, entries, curriculum))?;
        }
        let mut courses = Vec::new(alloc);
        for course in 0..instance.courses() {
            courses.push(course_cost(instance, entries, course))?;
        }
        Ok(Guide {
            curricula,
            courses,
            is_there: !entries.is_empty(),
        })
    }

    /// Returns an upper bound of a group's lowest cost.
    pub fn most(&self, curricula: &[u32], courses: &[u32]) -> u64 {
        if !self.is_there {
            return u64::MAX;
        }
        sum_of(&self.curricula, curricula).saturating_add(sum_of(&self.courses, courses))
    }

    /// Checks whether a value is all that the timetable costs.
    pub fn is_met(&self, value: u64) -> bool {
        let mut all: u64 = 0;
        for cost in self.curricula.iter().chain(&self.courses) {
            all = all.saturating_add(*cost);
        }
        self.is_there && all <= value
    }
}
