//! The lectures of each course, and the periods that are open to it.

ghost use Rattle.std.specs.Prelude.{◌<◌, length};

use std::alloc::{AllocError, Global};
use tt_instance::Instance;

/// The number of periods, or of courses, of a word.
const WORD: usize = 64;

/// Returns how many words have a bit for each number below a count.
pub fn word_count(count: usize) -> usize {
    count.div_ceil(WORD)
}

/// Sets the bit of a number.
pub fn set_bit(bits: &mut [u64], number: usize) {
    if let Some(word) = bits.get_mut(number / WORD) {
        *word |= 1u64 << (number % WORD);
    }
}

/// Removes the bit of a number.
pub fn clear_bit(bits: &mut [u64], number: usize) {
    if let Some(word) = bits.get_mut(number / WORD) {
        *word &= !(1u64 << (number % WORD));
    }
}

/// Returns whether the bit of a number is set.
pub fn has_bit(bits: &[u64], number: usize) -> bool {
    match bits.get(number / WORD) {
        Some(word) => (*word >> (number % WORD)) & 1 == 1,
        None => false,
    }
}

/// Returns the word at a place; 0 past the end.
pub fn word_at(bits: &[u64], place: usize) -> u64 {
    bits.get(place).copied().unwrap_or(0)
}

/// Returns the number of the first bit of a word that isn't 0, which is the word at a place.
pub fn first_bit(word: u64, place: usize) -> usize {
    place
        .saturating_mul(WORD)
        .saturating_add(word.trailing_zeros() as usize)
}

/// What a course needs, and what is open to it.
#[derive(Drop)]
struct Opening {
    lectures: u32,
    /// The periods that are open to the course, as bits, and how many they are.
    bits: Vec<u64>,
    periods: u32,
}

/// What each course needs, and what is open to it.
#[derive(Drop)]
pub struct Openings {
    courses: Vec<Opening>,
    rooms: u32,
    /// The number of periods of the week.
    periods: usize,
    /// The courses that have lectures, those with the fewest open periods first.
    order: Vec<u32>,
}

/// Returns the number of periods of the week.
fn periods_of_week(instance: &Instance<'_>) -> usize {
    (instance.days() as usize).saturating_mul(instance.periods() as usize)
}

fn open_bits(alloc: Global, instance: &Instance<'_>, course: u32) -> Result<Vec<u64>, AllocError> {
    let mut bits = vec![in alloc; 0u64; word_count(periods_of_week(instance))]?;
    let mut number: usize = 0;
    for day in 0..instance.days() {
        for period in 0..instance.periods() {
            if !instance.unavailable(course, day, period) {
                set_bit(&mut bits, number);
            }
            number = number.saturating_add(1);
        }
    }
    Ok(bits)
}

/// Counts the bits of words.
fn count_bits(bits: &[u64]) -> u32 {
    let mut count: u32 = 0;
    for word in bits {
        count = count.saturating_add(word.count_ones());
    }
    count
}

fn opening_of(alloc: Global, instance: &Instance<'_>, course: u32) -> Result<Opening, AllocError>
    requires { course < length instance.now.courses }
{
    let bits = open_bits(alloc, instance, course)?;
    let periods = count_bits(&bits);
    Ok(Opening {
        lectures: instance.lectures(course),
        bits,
        periods,
    })
}

impl Openings {
    /// Computes the needs and the open periods of an instance's courses.
    pub fn new(alloc: Global, instance: &Instance<'_>) -> Result<Openings, AllocError> {
        let mut courses = Vec::new(alloc);
        for course in 0..instance.courses() {
            courses.push(opening_of(alloc, instance, course)?)?;
        }
        let mut openings = Openings {
            courses,
            rooms: instance.rooms(),
            periods: periods_of_week(instance),
            order: Vec::new(alloc),
        };
        let mut order = Vec::new(alloc);
        for course in 0..instance.courses() {
            if openings.lectures(course) > 0 {
                order.push(course)?;
            }
        }
        order.sort_unstable_by_key(|course| (openings.periods(*course), *course));
        openings.order = order;
        Ok(openings)
    }

    /// Returns the number of courses.
    pub fn courses(&self) -> usize {
        self.courses.len()
    }

    /// Returns the number of periods of the week.
    pub fn periods_of_week(&self) -> usize {
        self.periods
    }

    /// Returns the number of rooms.
    pub fn rooms(&self) -> u32 {
        self.rooms
    }

    /// Returns the courses that have lectures, those with the fewest open periods first.
    pub fn order(&self) -> &[u32] {
        self.order.as_slice()
    }

    /// Returns how many lectures a course needs; 0 if the course is out of range.
    pub fn lectures(&self, course: u32) -> u32 {
        match self.courses.get(course as usize) {
            Some(opening) => opening.lectures,
            None => 0,
        }
    }

    /// Returns how many periods are open to a course.
    pub fn periods(&self, course: u32) -> u32 {
        match self.courses.get(course as usize) {
            Some(opening) => opening.periods,
            None => 0,
        }
    }

    /// Returns the periods that are open to a course, as bits.
    pub fn bits(&self, course: u32) -> &[u64] {
        match self.courses.get(course as usize) {
            Some(opening) => opening.bits.as_slice(),
            None => &[],
        }
    }

    /// Returns the marked courses that have lectures, those with the fewest open periods first.
    pub fn listed(&self, alloc: Global, members: &[bool]) -> Result<Vec<u32>, AllocError> {
        let mut courses = Vec::new(alloc);
        for course in self.order.as_slice() {
            if members.get(*course as usize).copied().unwrap_or(false) {
                courses.push(*course)?;
            }
        }
        Ok(courses)
    }
}
