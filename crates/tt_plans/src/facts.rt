//! What a plan needs of an instance.

use crate::reading::{curricula_of, members_of, missing_seats, wants_of};
use std::alloc::{AllocError, Global};
use tt_instance::Instance;
use tt_occupancy::Occupied;
use tt_plans_slots::level_of;
use tt_plans_tables::{Counts, Rows, Words};

/// The sizes of an instance, and of its timetable.
#[derive(Clone, Copy)]
pub struct Sizes {
    pub days: usize,
    pub periods: usize,
    /// The periods of all days. They are numbered through the week.
    pub slots: usize,
    pub rooms: usize,
    pub courses: usize,
    pub curricula: usize,
    pub lectures: usize,
    /// The words of a set of courses.
    pub words: usize,
}

/// A course.
#[derive(Clone, Copy)]
pub struct Course {
    pub lectures: u32,
    pub min_days: u32,
    /// The number of rooms that miss the fewest seats for it, less 1.
    pub level: usize,
}

/// What a plan needs of an instance.
pub struct Facts {
    pub sizes: Sizes,
    courses: Vec<Course>,
    /// The course of each lecture.
    course_of: Vec<u32>,
    /// The lectures of each course.
    pub lectures: Rows,
    /// The curricula of each course.
    pub curricula: Rows,
    /// The courses of each curriculum.
    pub members: Rows,
    /// The other courses that conflict with each course.
    pub rivals: Rows,
    /// The slots in which each course may be taught.
    pub open: Rows,
    /// The courses that conflict with each course, itself included, as a set.
    pub conflicts: Words,
    /// The slots in which each course may not be taught: 1, and 0 elsewhere.
    barred: Counts,
    /// The seats that each course misses in each room.
    pub missing: Counts,
    /// The place of each slot.
    places: Vec<Place>,
}

impl Drop for Facts {
    fn drop(self) {
        let Facts {
            sizes: _,
            courses: _,
            course_of: _,
            lectures: _,
            curricula: _,
            members: _,
            rivals: _,
            open: _,
            conflicts: _,
            barred: _,
            missing: _,
            places: _,
        } = self;
    }
}

/// The day of a slot, and its period on that day.
#[derive(Clone, Copy)]
pub struct Place {
    pub day: usize,
    pub period: u32,
}

/// Returns the sizes of an instance and of its timetable.
fn sizes_of(occupied: &Occupied<'_, '_>) -> Sizes {
    let instance = occupied.instance();
    let (days, periods) = (instance.days() as usize, instance.periods() as usize);
    let courses = instance.courses() as usize;
    Sizes {
        days,
        periods,
        slots: days.saturating_mul(periods),
        rooms: instance.rooms() as usize,
        courses,
        curricula: instance.curricula() as usize,
        lectures: occupied.table().len(),
        words: courses.div_ceil(64),
    }
}

/// Returns the places of all slots. Fails if memory runs out.
fn places_of(alloc: Global, instance: &Instance<'_>) -> Result<Vec<Place>, AllocError> {
    let mut places = Vec::new(alloc);
    for day in 0..instance.days() as usize {
        for period in 0..instance.periods() {
            places.push(Place { day, period })?;
        }
    }
    Ok(places)
}

impl Course {
    const NONE: Course = Course {
        lectures: 0,
        min_days: 0,
        level: 0,
    };

    fn of(instance: &Instance<'_>, course: u32) -> Course {
        let (lectures, min_days) = wants_of(instance, course);
        Course {
            lectures,
            min_days,
            level: level_of(instance, course) as usize,
        }
    }
}

impl Facts {
    /// Returns the facts of no courses. Fails if memory runs out.
    fn empty(alloc: Global, occupied: &Occupied<'_, '_>) -> Result<Facts, AllocError> {
        let sizes = sizes_of(occupied);
        let mut course_of = Vec::new(alloc);
        for entry in occupied.table().entries() {
            course_of.push(entry.course)?;
        }
        Ok(Facts {
            sizes,
            courses: Vec::new(alloc),
            lectures: Rows::positions(alloc, &course_of, sizes.courses)?,
            course_of,
            curricula: Rows::new(alloc),
            members: Rows::new(alloc),
            rivals: Rows::new(alloc),
            open: Rows::new(alloc),
            conflicts: Words::new(alloc, sizes.courses, sizes.words)?,
            barred: Counts::new(alloc, sizes.courses, sizes.slots, 0)?,
            missing: Counts::new(alloc, sizes.courses, sizes.rooms, 0)?,
            places: places_of(alloc, occupied.instance())?,
        })
    }

    /// Returns the facts of an instance and its timetable. Fails if memory runs out.
    pub fn new(alloc: Global, occupied: &Occupied<'_, '_>) -> Result<Facts, AllocError> {
        let mut facts = Facts::empty(alloc, occupied)?;
        facts.fill(occupied)?;
        Ok(facts)
    }

    /// Adds all courses and curricula.
    fn fill(&mut self, occupied: &Occupied<'_, '_>) -> Result<(), AllocError> {
        let instance = occupied.instance();
        for course in 0..instance.courses() {
            self.courses.push(Course::of(instance, course))?;
            self.curricula.push_row(curricula_of(occupied, course))?;
            self.add_rivals(instance, course)?;
            self.add_slots(instance, course)?;
            for room in 0..instance.rooms() {
                let missing = missing_seats(instance, course, room);
                self.missing.put(course as usize, room as usize, missing);
            }
        }
        for curriculum in 0..instance.curricula() {
            self.members.push_row(members_of(occupied, curriculum))?;
        }
        Ok(())
    }

    /// Adds the courses that conflict with a course.
    fn add_rivals(&mut self, instance: &Instance<'_>, course: u32) -> Result<(), AllocError> {
        for other in 0..instance.courses() {
            if other == course || instance.conflict(course, other) {
                let bit = 1u64.wrapping_shl(other % 64);
                self.conflicts
                    .turn(course as usize, (other / 64) as usize, bit);
                if other != course {
                    self.rivals.push(other)?;
                }
            }
        }
        self.rivals.end_row()
    }

    /// Adds the slots of a course.
    fn add_slots(&mut self, instance: &Instance<'_>, course: u32) -> Result<(), AllocError> {
        let mut slot: u32 = 0;
        for day in 0..instance.days() {
            for period in 0..instance.periods() {
                if instance.unavailable(course, day, period) {
                    self.barred.put(course as usize, slot as usize, 1);
                } else {
                    self.open.push(slot)?;
                }
                slot = slot.saturating_add(1);
            }
        }
        self.open.end_row()
    }

    /// Returns a course.
    pub fn course(&self, course: usize) -> Course {
        self.courses.get(course).copied().unwrap_or(Course::NONE)
    }

    /// Returns the course of a lecture.
    pub fn course_of(&self, lecture: u32) -> usize {
        self.course_of
            .get(lecture as usize)
            .copied()
            .unwrap_or(u32::MAX) as usize
    }

    /// Checks whether a course may not be taught in a slot.
    pub fn is_barred(&self, course: usize, slot: usize) -> bool {
        self.barred.get(course, slot) != 0
    }

    /// Returns the place of a slot.
    pub fn place(&self, slot: usize) -> Place {
        self.places
            .get(slot)
            .copied()
            .unwrap_or(Place { day: 0, period: 0 })
    }
}
