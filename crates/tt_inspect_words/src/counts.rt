//! Numbers that are counted once for an instance and used by all texts about it.

use std::alloc::{AllocError, Global};
use tt_instance::Instance;

/// Counts of a course.
#[derive(Clone, Copy)]
pub struct CourseCounts {
    pub lectures: u64,
    /// The number of curricula of the course.
    pub curricula: u64,
}

/// Counts of each course, and the courses of each teacher.
#[derive(Drop)]
pub struct Counts {
    /// The counts of each course.
    courses: Vec<CourseCounts>,
    /// The courses of each teacher.
    taught: Vec<Vec<u32>>,
}

/// Returns the courses of each teacher.
fn courses_by_teacher(alloc: Global, instance: &Instance<'_>) -> Result<Vec<Vec<u32>>, AllocError> {
    let mut taught: Vec<Vec<u32>> = Vec::new(alloc);
    for _ in 0..instance.teachers() {
        taught.push(Vec::new(alloc))?;
    }
    for course in 0..instance.courses() {
        if let Some(courses) = taught.get_mut(instance.teacher_of(course) as usize) {
            courses.push(course)?;
        }
    }
    Ok(taught)
}

/// Counts the curricula of each course.
fn count_curricula(courses: &mut [CourseCounts], instance: &Instance<'_>) {
    for curriculum in 0..instance.curricula() {
        for course in instance.members(curriculum) {
            if let Some(counts) = courses.get_mut(*course as usize) {
                counts.curricula = counts.curricula.saturating_add(1);
            }
        }
    }
}

impl Counts {
    /// Computes the counts of an instance.
    pub fn of(alloc: Global, instance: &Instance<'_>) -> Result<Counts, AllocError> {
        let mut courses = Vec::new(alloc);
        for course in 0..instance.courses() {
            courses.push(CourseCounts {
                lectures: u64::from(instance.lectures(course)),
                curricula: 0,
            })?;
        }
        count_curricula(&mut courses, instance);
        Ok(Counts {
            courses,
            taught: courses_by_teacher(alloc, instance)?,
        })
    }

    /// Returns the counts of a course; zeros if the course is out of range.
    pub fn of_course(&self, course: u32) -> CourseCounts {
        match self.courses.get(course as usize) {
            Some(counts) => *counts,
            None => CourseCounts {
                lectures: 0,
                curricula: 0,
            },
        }
    }

    /// Counts the lectures of courses.
    pub fn lectures_of(&self, courses: &[u32]) -> u64 {
        let mut lectures: u64 = 0;
        for course in courses {
            lectures = lectures.saturating_add(self.of_course(*course).lectures);
        }
        lectures
    }

    /// Counts the lectures of all courses.
    pub fn lectures(&self) -> u64 {
        let mut lectures: u64 = 0;
        for counts in &self.courses {
            lectures = lectures.saturating_add(counts.lectures);
        }
        lectures
    }

    /// Returns the courses of a teacher.
    pub fn taught_by(&self, teacher: u32) -> &[u32] {
        match self.taught.get(teacher as usize) {
            Some(courses) => courses.as_slice(),
            None => &[],
        }
    }
}
