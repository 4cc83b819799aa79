//! How the courses of a group are counted on a day and over the week.

use crate::fields::{Field, Fields};
use crate::limits::Limits;
use crate::members::{Member, members_of_group};
use crate::sets::{Set, list_sets};
use crate::targets::Targets;
use std::alloc::{AllocError, Global};
use tt_instance::{Instance, MISSING_DAY_COST};
use tt_parts_least::lectures_of;

/// The maximum number of courses of a group.
const COURSES: usize = 16;

/// The maximum number of curricula of a group.
const CURRICULA: usize = 64;

/// How the lectures of a day are counted over the week: a lecture and a further lecture in the word of the week, and the further lectures of a
/// day that aren't paid for.
#[derive(Clone, Copy, Debug)]
struct Rule {
    day: Field,
    lecture: u64,
    further: u64,
    free: u64,
}

/// The word of a day, and what is paid at its end, in cost points.
#[derive(Clone, Copy, Debug)]
pub struct Ended {
    pub packed: u64,
    pub points: u64,
}

/// The counts of a day and of the week, the courses, their sets, and what every week pays.
#[derive(Debug, Drop)]
pub struct Shape {
    pub members: Vec<Member>,
    pub sets: Vec<Set>,
    pub day: Fields,
    pub week: Fields,
    rules: Vec<Rule>,
    units: Vec<u64>,
    pub states: u64,
    pub base: u64,
}

/// Returns the minimum days of a course; 0 if the course doesn't exist.
fn min_days_of(instance: &Instance<'_>, course: u32) -> u32 {
    if course < instance.courses() {
        instance.min_days(course)
    } else {
        0
    }
}

impl Shape {
    /// Returns a shape without courses.
    fn empty(alloc: Global) -> Shape {
        Shape {
            members: Vec::new(alloc),
            sets: Vec::new(alloc),
            day: Fields::new(alloc),
            week: Fields::new(alloc),
            rules: Vec::new(alloc),
            units: Vec::new(alloc),
            states: 1,
            base: 0,
        }
    }

    /// Adds a count of the week. Returns a word in which it is 1, or `None` if there is no room for it.
    fn add_week(&mut self, most: u32, is_capped: bool) -> Result<Option<u64>, AllocError> {
        self.states = self
            .states
            .saturating_mul(u64::from(most).saturating_add(1));
        if most == 0 {
            return Ok(Some(0));
        }
        let field = self.week.add(most, is_capped)?;
        Ok(field.map(|field| field.unit()))
    }

    /// Adds a course. Returns `false` if there is no room for its counts.
    fn add_course(
        &mut self,
        instance: &Instance<'_>,
        targets: &Targets<'_>,
        course: u32,
    ) -> Result<bool, AllocError> {
        let lectures = lectures_of(instance, course);
        let (is_counted, has_days) = (!targets.is_uncounted(course), targets.has_days_of(course));
        if !is_counted && !has_days {
            self.units.push(0)?;
            return Ok(true);
        }
        let slack = lectures.saturating_sub(min_days_of(instance, course));
        let most = if is_counted {
            lectures
        } else {
            slack.saturating_add(1)
        };
        let Some(day) = self.day.add(most, !is_counted)? else {
            return Ok(false);
        };
        let lecture = self.add_week(if is_counted { lectures } else { 0 }, false)?;
        let further = self.add_week(if has_days { slack } else { 0 }, true)?;
        let (Some(lecture), Some(further)) = (lecture, further) else {
            return Ok(false);
        };
        self.units.push(day.unit())?;
        self.rules.push(Rule {
            day,
            lecture,
            further,
            free: if has_days { u64::from(slack) } else { u64::MAX },
        })?;
        Ok(true)
    }

    /// Adds the days that a course lacks even if it has one lecture a day.
    fn add_base(&mut self, instance: &Instance<'_>, course: u32) {
        let missing = min_days_of(instance, course).saturating_sub(lectures_of(instance, course));
        let cost = u64::from(missing).saturating_mul(u64::from(MISSING_DAY_COST));
        self.base = self.base.saturating_add(cost);
    }

    /// Returns the shape of a group, or `None` if the group is too large.
    pub fn new(
        alloc: Global,
        instance: &Instance<'_>,
        targets: &Targets<'_>,
        limits: Limits,
    ) -> Result<Option<Shape>, AllocError> {
        let courses = targets.concerned(alloc, instance)?;
        if COURSES < courses.len() || CURRICULA < targets.curricula.len() {
            return Ok(None);
        }
        let mut shape = Shape::empty(alloc);
        for course in &courses {
            if !shape.add_course(instance, targets, *course)? || limits.states < shape.states {
                return Ok(None);
            }
        }
        for course in targets.courses {
            shape.add_base(instance, *course);
        }
        shape.members = members_of_group(
            alloc,
            instance,
            &courses,
            &shape.units,
            targets.curricula,
        )?;
        let Some(sets) = list_sets(alloc, &shape.members, limits.sets)? else {
            return Ok(None);
        };
        shape.sets = sets;
        Ok(Some(shape))
    }

    /// Returns the word of the week of a day with these counts, and what is paid for its further lectures.
    pub fn end(&self, packed: u64) -> Ended {
        let mut ended = Ended {
            packed: 0,
            points: 0,
        };
        for rule in &self.rules {
            let count = rule.day.count(packed);
            let further = count.saturating_sub(1);
            let free = further.min(rule.free);
            let paid = further
                .saturating_sub(free)
                .saturating_mul(u64::from(MISSING_DAY_COST));
            ended.packed = ended
                .packed
                .wrapping_add(count.wrapping_mul(rule.lecture))
                .wrapping_add(free.wrapping_mul(rule.further));
            ended.points = ended.points.saturating_add(paid);
        }
        ended
    }
}
