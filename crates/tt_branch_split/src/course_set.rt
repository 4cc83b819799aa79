//! Sets of courses as bits. Nothing is proved about them.

use std::alloc::{AllocError, Global};
use tt_instance::Instance;

/// The number of courses in one word.
const WORD: u32 = 64;

/// Returns the course of the lowest bit of a word.
pub fn first_course(word: u32, set: u64) -> u32 {
    word.saturating_mul(WORD)
        .saturating_add(set.trailing_zeros())
}

/// Returns the bit of a course in a word, or no bit if the course is in another word.
pub fn bit_in(word: u32, course: u32) -> u64 {
    if course / WORD == word {
        1u64.checked_shl(course % WORD).unwrap_or(0)
    } else {
        0
    }
}

/// A set of courses.
#[derive(Drop)]
pub struct CourseSet {
    words: Vec<u64>,
}

impl CourseSet {
    /// Returns the set of some courses of an instance.
    pub fn new(
        alloc: Global,
        instance: &Instance<'_>,
        courses: &[u32],
    ) -> Result<CourseSet, AllocError> {
        let mut words = vec![in alloc; 0u64; words_for(instance) as usize]?;
        for course in courses {
            let word = course / WORD;
            if let Some(bits) = words.get_mut(word as usize) {
                *bits |= bit_in(word, *course);
            }
        }
        Ok(CourseSet { words })
    }

    /// Returns a word of the set.
    pub fn word(&self, word: u32) -> u64 {
        self.words.get(word as usize).copied().unwrap_or(0)
    }
}

/// Returns the number of words of a set of an instance's courses.
pub fn words_for(instance: &Instance<'_>) -> u32 {
    instance.courses().div_ceil(WORD)
}

/// Returns a word of the courses that conflict with a course.
pub fn rivals_in(instance: &Instance<'_>, course: u32, word: u32) -> u64 {
    instance
        .conflict_words(course)
        .get(word as usize)
        .copied()
        .unwrap_or(0)
}
