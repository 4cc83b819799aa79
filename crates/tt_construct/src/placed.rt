//! The lectures placed so far, as counts.

use crate::counts::Counts;
use crate::instance_data::{Course, InstanceData};
use crate::place::Place;
use std::alloc::{AllocError, Global};
use tt_instance::Instance;

/// The state of a course whose lectures are being placed.
#[derive(Clone, Copy)]
pub struct CourseState {
    /// The number of lectures still to place.
    pub left: u32,
    /// The number of periods in which another lecture would break no rule, not counting its room.
    pub open: u32,
    /// The number of days with a lecture.
    pub days: u32,
}

impl CourseState {
    const NONE: CourseState = CourseState {
        left: 0,
        open: 0,
        days: 0,
    };
}

/// The counts of the placed lectures.
#[derive(Drop)]
pub struct PlacedLectures {
    states: Vec<CourseState>,
    /// The number of rules that a lecture of each course would break in each period, not counting its room.
    broken: Counts,
    /// The lectures in each room and period.
    pub rooms: Counts,
    /// The lectures of each curriculum in each period.
    pub curricula: Counts,
    /// The lectures of each course on each day.
    pub days: Counts,
    /// The lectures of each course in each room.
    pub course_rooms: Counts,
}

/// Returns the states of the courses, with none of their lectures placed.
fn first_states(alloc: Global, data: &InstanceData) -> Result<Vec<CourseState>, AllocError> {
    let mut states = Vec::new(alloc);
    for course in &data.courses {
        states.push(CourseState {
            left: course.lectures,
            open: data.slots,
            days: 0,
        })?;
    }
    Ok(states)
}

impl PlacedLectures {
    /// Returns counts for no placed lecture, and no period is barred.
    fn empty(alloc: Global, data: &InstanceData) -> Result<PlacedLectures, AllocError> {
        let (courses, rooms) = (data.course_count, data.room_count);
        Ok(PlacedLectures {
            states: first_states(alloc, data)?,
            broken: Counts::new(alloc, courses, data.slots)?,
            rooms: Counts::new(alloc, rooms, data.slots)?,
            curricula: Counts::new(alloc, data.curriculum_count, data.slots)?,
            days: Counts::new(alloc, courses, data.days)?,
            course_rooms: Counts::new(alloc, courses, rooms)?,
        })
    }

    /// Returns counts for no placed lecture.
    pub fn new(
        alloc: Global,
        instance: &Instance<'_>,
        data: &InstanceData,
    ) -> Result<PlacedLectures, AllocError> {
        let periods = instance.periods();
        let mut placed = PlacedLectures::empty(alloc, data)?;
        for index in 0..instance.unavailabilities() {
            let (course, day, period) = instance.unavailability(index);
            placed.close(course, day.saturating_mul(periods).saturating_add(period));
        }
        Ok(placed)
    }

    /// Returns the state of a course; a course that doesn't exist has no lecture left.
    pub fn state_of(&self, course: u32) -> CourseState {
        self.states
            .get(course as usize)
            .copied()
            .unwrap_or(CourseState::NONE)
    }

    /// Returns the number of rules that a lecture of a course would break in a period, not counting its room.
    pub fn broken(&self, course: u32, slot: u32) -> u32 {
        u32::from(self.broken.get(course, slot))
    }

    /// Returns the demand of a course for a period: its lectures left for each open period, in 256ths.
    fn wanted_by(&self, course: u32, slot: u32) -> u32 {
        if self.broken(course, slot) > 0 {
            return 0;
        }
        let state = self.state_of(course);
        state
            .left
            .saturating_mul(256)
            .checked_div(state.open)
            .unwrap_or(0)
    }

    /// Returns the demand for a period by the courses to which a lecture of the course would close it.
    pub fn wanted(&self, course: &Course, slot: u32) -> u32 {
        let mut wanted: u32 = 0;
        for opponent in &course.opponents {
            wanted = wanted.saturating_add(self.wanted_by(*opponent, slot));
        }
        wanted
    }

    /// Notes that a lecture of the course would break another rule in the period.
    fn close(&mut self, course: u32, slot: u32) {
        if self.broken.add(course, slot)
            && let Some(state) = self.states.get_mut(course as usize)
        {
            state.open = state.open.saturating_sub(1);
        }
    }

    /// Closes the period to a course and to its opponents.
    fn close_round(&mut self, number: u32, course: &Course, slot: u32) {
        self.close(number, slot);
        for opponent in &course.opponents {
            self.close(*opponent, slot);
        }
    }

    /// Notes that a lecture of the course is placed on a day.
    fn take(&mut self, course: u32, day: u32) {
        let is_new = self.days.add(course, day);
        if let Some(state) = self.states.get_mut(course as usize) {
            state.left = state.left.saturating_sub(1);
            if is_new {
                state.days = state.days.saturating_add(1);
            }
        }
    }

    /// Counts a lecture of a course at a place.
    pub fn put(&mut self, data: &InstanceData, number: u32, course: &Course, place: Place) {
        let day = place.slot.checked_div(data.periods).unwrap_or(0);
        self.take(number, day);
        self.close_round(number, course, place.slot);
        let _ = self.rooms.add(place.room, place.slot);
        let _ = self.course_rooms.add(number, place.room);
        for curriculum in &course.curricula {
            let _ = self.curricula.add(*curriculum, place.slot);
        }
    }
}
