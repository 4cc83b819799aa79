//! Lectures that are placed in periods one by one. A lecture for which none is left shows which courses are too many.

use crate::openings::{Openings, first_bit, set_bit, word_at, word_count};
use std::alloc::{AllocError, Global};

/// The lectures of each period.
#[derive(Drop)]
struct Placement {
    /// How many lectures can be in the same period.
    at_once: usize,
    /// The courses of the lectures in each period.
    placed: Vec<Vec<u32>>,
    /// The periods that can take no more, as bits.
    full: Vec<u64>,
}

/// A search for a period for a lecture, in which lectures of other courses may move.
#[derive(Drop)]
struct Chase {
    /// The courses of which a lecture needs another period.
    reached: Vec<bool>,
    /// These courses, in the order in which they were reached.
    waiting: Vec<u32>,
    /// For each of these courses but the first, the period that its lecture leaves.
    left: Vec<usize>,
    /// The periods that were reached, as bits.
    seen: Vec<u64>,
    /// For each of these periods, the course whose lecture comes.
    coming: Vec<u32>,
}

impl Chase {
    /// Creates the search for a period for a lecture of a course.
    fn of(alloc: Global, openings: &Openings, course: u32) -> Result<Chase, AllocError> {
        let periods = openings.periods_of_week();
        let mut chase = Chase {
            reached: vec![in alloc; false; openings.courses()]?,
            waiting: Vec::new(alloc),
            left: vec![in alloc; 0usize; openings.courses()]?,
            seen: vec![in alloc; 0u64; word_count(periods)]?,
            coming: vec![in alloc; 0u32; periods]?,
        };
        chase.reach(course, 0)?;
        Ok(chase)
    }

    /// Notes that a lecture of a course leaves a period, unless one of the course was reached before.
    fn reach(&mut self, course: u32, period: usize) -> Result<(), AllocError> {
        let Some(reached) = self.reached.get_mut(course as usize) else {
            return Ok(());
        };
        if *reached {
            return Ok(());
        }
        *reached = true;
        if let Some(left) = self.left.get_mut(course as usize) {
            *left = period;
        }
        self.waiting.push(course)?;
        Ok(())
    }

    /// Notes that a lecture of a course enters a period, and that the lectures there leave it.
    fn enter(
        &mut self,
        placement: &Placement,
        course: u32,
        period: usize,
    ) -> Result<(), AllocError> {
        set_bit(&mut self.seen, period);
        if let Some(coming) = self.coming.get_mut(period) {
            *coming = course;
        }
        for other in placement.courses_in(period) {
            self.reach(*other, period)?;
        }
        Ok(())
    }

    /// Enters each open period of a course that was not reached before.
    fn spread(
        &mut self,
        placement: &Placement,
        openings: &Openings,
        course: u32,
    ) -> Result<(), AllocError> {
        for (place, word) in openings.bits(course).iter().enumerate() {
            let mut new = *word & !word_at(&self.seen, place);
            for _ in 0..u64::BITS {
                if new == 0 {
                    break;
                }
                self.enter(placement, course, first_bit(new, place))?;
                new &= new.wrapping_sub(1);
            }
        }
        Ok(())
    }

    /// Returns the course that was reached after so many others.
    fn course_at(&self, index: usize) -> Option<u32> {
        self.waiting.get(index).copied()
    }

    /// Returns the period that a lecture of a course leaves, and the course whose lecture comes there.
    fn step_from(&self, course: u32) -> (usize, u32) {
        let period = self.left.get(course as usize).copied().unwrap_or(0);
        (period, self.coming.get(period).copied().unwrap_or(0))
    }
}

impl Placement {
    fn new(alloc: Global, openings: &Openings, at_once: u32) -> Result<Placement, AllocError> {
        let mut placed: Vec<Vec<u32>> = Vec::new(alloc);
        for _ in 0..openings.periods_of_week() {
            placed.push(Vec::new(alloc))?;
        }
        let word = if at_once == 0 { u64::MAX } else { 0 };
        Ok(Placement {
            at_once: at_once as usize,
            placed,
            full: vec![in alloc; word; word_count(openings.periods_of_week())]?,
        })
    }

    fn courses_in(&self, period: usize) -> &[u32] {
        match self.placed.get(period) {
            Some(courses) => courses.as_slice(),
            None => &[],
        }
    }

    /// Returns the first open period of a course that can take one more lecture.
    fn free_period(&self, openings: &Openings, course: u32) -> Option<usize> {
        for (place, word) in openings.bits(course).iter().enumerate() {
            let free = *word & !word_at(&self.full, place);
            if free != 0 {
                return Some(first_bit(free, place));
            }
        }
        None
    }

    /// Puts a lecture of a course into a period.
    fn put(&mut self, course: u32, period: usize) -> Result<(), AllocError> {
        let Some(courses) = self.placed.get_mut(period) else {
            return Ok(());
        };
        courses.push(course)?;
        if courses.len() >= self.at_once {
            set_bit(&mut self.full, period);
        }
        Ok(())
    }

    /// Puts a lecture of a course into a period in the place of one of another course.
    fn replace(&mut self, gone: u32, course: u32, period: usize) {
        let Some(courses) = self.placed.get_mut(period) else {
            return;
        };
        for index in 0..courses.len() {
            if let Some(placed) = courses.get_mut(index)
                && *placed == gone
            {
                *placed = course;
                return;
            }
        }
    }

    /// Puts a lecture of the last course into a free period, and lets the lectures of a chase move up, until a new one of the first course
    /// has a period.
    fn shift(
        &mut self,
        chase: &Chase,
        first: u32,
        last: u32,
        period: usize,
    ) -> Result<(), AllocError> {
        self.put(last, period)?;
        let mut course = last;
        for _ in 0..chase.waiting.len() {
            if course == first {
                break;
            }
            let (period, next) = chase.step_from(course);
            self.replace(course, next, period);
            course = next;
        }
        Ok(())
    }

    /// Places a lecture of a course, and moves others if it has to. If it can't be placed, returns the marks of courses that have more
    /// lectures together than the periods that are open to them can take.
    fn add(
        &mut self,
        alloc: Global,
        openings: &Openings,
        course: u32,
    ) -> Result<Option<Vec<bool>>, AllocError> {
        if let Some(period) = self.free_period(openings, course) {
            self.put(course, period)?;
            return Ok(None);
        }
        let mut chase = Chase::of(alloc, openings, course)?;
        for index in 0..openings.courses() {
            let Some(next) = chase.course_at(index) else {
                break;
            };
            if let Some(period) = self.free_period(openings, next) {
                self.shift(&chase, course, next, period)?;
                return Ok(None);
            }
            chase.spread(self, openings, next)?;
        }
        Ok(Some(chase.reached))
    }
}

/// Returns whether some courses, those with the fewest open periods first, surely have enough: the open periods of each can take the
/// lectures of it and of those before it.
fn are_few(openings: &Openings, courses: &[u32], at_once: u32) -> bool {
    let mut lectures: u64 = 0;
    for course in courses {
        lectures = lectures.saturating_add(u64::from(openings.lectures(*course)));
        let places = u64::from(openings.periods(*course)).saturating_mul(u64::from(at_once));
        if places < lectures {
            return false;
        }
    }
    true
}

/// Returns the marks of some of the marked courses that have more lectures together than the periods that are open to them can take, with
/// at most so many lectures in a period; `None` if there are no such courses.
pub fn find_crowd(
    alloc: Global,
    openings: &Openings,
    members: &[bool],
    at_once: u32,
) -> Result<Option<Vec<bool>>, AllocError> {
    let courses = openings.listed(alloc, members)?;
    if are_few(openings, &courses, at_once) {
        return Ok(None);
    }
    let mut placement = Placement::new(alloc, openings, at_once)?;
    for course in &courses {
        for _ in 0..openings.lectures(*course) {
            if let Some(crowd) = placement.add(alloc, openings, *course)? {
                return Ok(Some(crowd));
            }
        }
    }
    Ok(None)
}
