//! Sets of courses.

ghost use Rattle.std.specs.Prelude.{◌≡◌, ◌<◌, ◌/◌, ◌%◌, ℕ, true, false, length, replicate, slice_index_or, slice_set, IfOk};
ghost use Rattle.tt_bits.specs.Inner.Bits.{has_bit};
ghost use Rattle.tt_instance.specs.Inner.Flags.{flag_in};

use std::alloc::{AllocError, Global};
use std::marker::Model;
use tt_bits::{both, either, has_bit, is_empty, one, without};

/// The courses of a word.
const BITS: usize = 64;

/// A set of courses of an instance: course k is the bit k % 64 of the word k / 64.
#[derive(Drop)]
pub struct CourseSet {
    words: Vec<u64>,
    /// The number of courses of the instance.
    courses: usize,
}

impl Model for CourseSet {
    ghost use Rattle.std.specs.Prelude.{List, Bool};
    ghost use Rattle.tt_instance.specs.Inner.Flags.{flags_in};
    ghost use Rattle.tt_plans_slots.specs.Inner.CourseWords.{AreCourseWords};

    ghost Value = { List Bool };

    ghost view = { λ a. flags_in a.words.items a.courses };

    ghost invariant = { λ a. AreCourseWords a.words.items a.courses };
}

/// Returns a word; 0 from the end on.
fn word_at(words: &[u64], place: usize) -> u64
    ensures { result ≡ slice_index_or words.now place 0 }
{
    words.get(place).copied().unwrap_or(0)
}

/// Checks whether two sets of words have a course in common.
fn have_common(words: &[u64], others: &[u64]) -> bool
    ensures some { result ≡ true → (k : ℕ) × (flag_in words.now k ≡ true) × (flag_in others.now k ≡ true) }
    ensures none { result ≡ false → (k : ℕ) → flag_in words.now k ≡ true → flag_in others.now k ≡ false }
{
    for (place, word) in words.iter().enumerate() {
        if !is_empty(both(*word, word_at(others, place))) {
            return true;
        }
    }
    false
}

impl CourseSet {
    /// Returns the set of no courses of an instance with this many. Fails if memory runs out.
    pub fn new(alloc: Global, courses: usize) -> Result<CourseSet, AllocError>
        ensures { IfOk result (λ s. s ≡ replicate courses false) }
    {
        let words = Vec::from_elem(alloc, 0, courses.div_ceil(BITS))?;
        Ok(CourseSet { words, courses })
    }

    /// Removes all courses.
    pub fn clear(&mut self)
        ensures { self.new ≡ replicate (length self.old) false }
    {
        self.words.fill(0);
    }

    /// Checks whether a course is in the set.
    #[tactic(auto, using(crate::proofs::Words::word_of))]
    pub fn has(&self, course: usize) -> bool
        ensures { result ≡ slice_index_or self.now course false }
    {
        course < self.courses && has_bit(self.words[course / BITS], (course % BITS) as u32)
    }

    /// Returns the words.
    pub fn words(&self) -> &[u64]
        ensures { (k : ℕ) → has_bit (slice_index_or result.now (k / 64) 0) (k % 64) ≡ slice_index_or self.now k false }
    {
        &self.words
    }

    /// Checks whether a course of the set is among others, which are given as words.
    pub fn meets(&self, others: &[u64]) -> bool
        ensures some { result ≡ true → (k : ℕ) × (slice_index_or self.now k false ≡ true) × (flag_in others.now k ≡ true) }
        ensures none { result ≡ false → (k : ℕ) → slice_index_or self.now k false ≡ true → flag_in others.now k ≡ false }
    {
        have_common(self.words(), others)
    }

    /// Adds a course.
    #[tactic(auto, using(tt_instance::proofs::Flagging::flags_length, crate::proofs::Words::word_of))]
    pub fn insert(&mut self, course: usize)
        requires { course < length self.old }
        ensures { self.new ≡ slice_set self.old course true }
    {
        let word = &mut self.words[course / BITS];
        *word = either(*word, one((course % BITS) as u32));
    }

    /// Removes a course.
    #[tactic(auto, using(tt_instance::proofs::Flagging::flags_length, crate::proofs::Words::word_of))]
    pub fn remove(&mut self, course: usize)
        requires { course < length self.old }
        ensures { self.new ≡ slice_set self.old course false }
    {
        let word = &mut self.words[course / BITS];
        *word = without(*word, one((course % BITS) as u32));
    }
}
