//! The encoding of the lectures of a group.

use std::alloc::{AllocError, Global};
use tt_instance::{Instance, MISSING_DAY_COST};

/// The maximum number of courses that a group concerns.
const COURSES: usize = 16;

/// The maximum number of curricula of a group.
const CURRICULA: usize = 64;

/// The maximum number of states of a table.
const STATES: u64 = 1_048_576;

/// The bits of a packed word.
const WORD: u32 = 64;

/// A course that a group concerns: its lectures, their position in a packed word, and the amount that one of them adds to a place.
#[derive(Clone, Copy)]
pub struct Course {
    pub number: u32,
    pub lectures: u32,
    pub shift: u32,
    pub weight: u32,
}

/// A course of the group that has more lectures than minimum days: so many further lectures cost nothing.
#[derive(Clone, Copy)]
pub struct Slack {
    pub shift: u32,
    pub mask: u64,
    pub further: u32,
    /// The amount that one further lecture adds to a place.
    pub weight: u32,
}

impl Slack {
    /// Returns the further lectures of the course on a day with these lectures.
    pub fn further_of(&self, packed: u64) -> u32 {
        let lectures = (packed >> (self.shift % WORD)) & self.mask;
        (lectures % 256) as u32 - u32::from(lectures % 256 != 0)
    }

    /// Returns the further lectures so far, at a place.
    pub fn further_at(&self, place: u32) -> u32 {
        let digits = place.checked_div(self.weight).unwrap_or(0);
        digits
            .checked_rem(self.further.saturating_add(1))
            .unwrap_or(0)
    }
}

/// Numbers of lectures of all courses are packed into one word: a field for each course, with one bit more than its lectures need. They are
/// also a place in a table: each digit has as many values as its course can have, and the digits of further lectures follow.
#[derive(Drop)]
pub struct Layout {
    pub courses: Vec<Course>,
    pub slacks: Vec<Slack>,
    /// The courses of the group that pay for each further lecture, a bit for each.
    pub tight: u32,
    /// All lectures, packed.
    pub full: u64,
    /// The highest bit of each field.
    pub guard: u64,
    /// The number of places for lectures alone, and the number with further lectures.
    pub places: u32,
    pub states: u32,
    /// The total number of lectures.
    pub lectures: u32,
    /// The cost that every timetable pays, since a course has no more days than lectures.
    pub base: u64,
}

/// Returns the lectures of a course; 0 if the course doesn't exist.
pub fn lectures_of(instance: &Instance<'_>, course: u32) -> u32 {
    if course < instance.courses() {
        instance.lectures(course)
    } else {
        0
    }
}

/// Returns the minimum days of a course; 0 if the course doesn't exist.
fn min_days_of(instance: &Instance<'_>, course: u32) -> u32 {
    if course < instance.courses() {
        instance.min_days(course)
    } else {
        0
    }
}

/// Returns the members of a curriculum; none if the curriculum doesn't exist.
pub fn members_of<'a>(instance: &'a Instance<'_>, curriculum: u32) -> &'a [u32] {
    if curriculum < instance.curricula() {
        instance.members(curriculum)
    } else {
        &[]
    }
}

/// Returns the courses that a group concerns, in order.
pub fn courses_of(
    alloc: Global,
    instance: &Instance<'_>,
    curricula: &[u32],
    own: &[u32],
) -> Result<Vec<u32>, AllocError> {
    let mut courses = Vec::from_slice(alloc, own)?;
    for curriculum in curricula {
        for course in members_of(instance, *curriculum) {
            if !courses.contains(course) {
                courses.push(*course)?;
            }
        }
    }
    courses.sort_unstable();
    Ok(courses)
}

impl Layout {
    /// Returns a layout without courses.
    fn empty(alloc: Global) -> Layout {
        Layout {
            courses: Vec::new(alloc),
            slacks: Vec::new(alloc),
            tight: 0,
            full: 0,
            guard: 0,
            places: 1,
            states: 1,
            lectures: 0,
            base: 0,
        }
    }

    /// Counts the lectures of a course. Returns the number of bits that are used then, or `None` if there are too many bits or places.
    fn add_course(
        &mut self,
        number: u32,
        lectures: u32,
        taken: u32,
    ) -> Result<Option<u32>, AllocError> {
        let bits = u32::BITS - lectures.leading_zeros();
        let next = taken.saturating_add(bits).saturating_add(1);
        let places = u64::from(self.places).saturating_mul(u64::from(lectures) + 1);
        if WORD < next || STATES < places {
            return Ok(None);
        }
        self.courses.push(Course {
            number,
            lectures,
            shift: taken,
            weight: self.places,
        })?;
        self.full |= u64::from(lectures) << (taken % WORD);
        self.guard |= 1 << (next.saturating_sub(1) % WORD);
        self.places = places as u32;
        self.lectures = self.lectures.saturating_add(lectures);
        Ok(Some(next))
    }

    /// Counts the further lectures of a course of the group. Returns `false` if there are too many states.
    fn add_own(&mut self, place: usize, min_days: u32) -> Result<bool, AllocError> {
        let Some(course) = self.courses.get(place).copied() else {
            return Ok(true);
        };
        if course.lectures <= min_days {
            self.tight |= 1 << (place % 32);
            let missing = u64::from(min_days - course.lectures);
            let price = missing.saturating_mul(u64::from(MISSING_DAY_COST));
            self.base = self.base.saturating_add(price);
            return Ok(true);
        }
        let further = course.lectures - min_days;
        let states = u64::from(self.states).saturating_mul(u64::from(further) + 1);
        if STATES < states {
            return Ok(false);
        }
        let bits = u32::BITS - course.lectures.leading_zeros();
        self.slacks.push(Slack {
            shift: course.shift,
            mask: (1 << (bits % WORD)) - 1,
            further,
            weight: self.states,
        })?;
        self.states = states as u32;
        Ok(true)
    }

    /// Counts the lectures of all courses.
    fn of_courses(
        alloc: Global,
        instance: &Instance<'_>,
        numbers: &[u32],
    ) -> Result<Option<Layout>, AllocError> {
        let mut layout = Layout::empty(alloc);
        let mut taken = 0;
        for number in numbers {
            match layout.add_course(*number, lectures_of(instance, *number), taken)? {
                Some(next) => taken = next,
                None => return Ok(None),
            }
        }
        layout.states = layout.places;
        Ok(Some(layout))
    }

    /// Returns the layout of a group, or `None` if the group is too large for it.
    pub fn new(
        alloc: Global,
        instance: &Instance<'_>,
        curricula: &[u32],
        own: &[u32],
    ) -> Result<Option<Layout>, AllocError> {
        let numbers = courses_of(alloc, instance, curricula, own)?;
        if COURSES < numbers.len() || CURRICULA < curricula.len() {
            return Ok(None);
        }
        let Some(mut layout) = Layout::of_courses(alloc, instance, &numbers)? else {
            return Ok(None);
        };
        for (place, number) in numbers.iter().enumerate() {
            if own.contains(number) && !layout.add_own(place, min_days_of(instance, *number))? {
                return Ok(None);
            }
        }
        Ok(Some(layout))
    }
}
