//! Periods of all lectures, and the rules that they break.

use crate::instance_data::InstanceData;
use crate::place::Place;
use std::alloc::{AllocError, Global};
use tt_instance::Instance;
use tt_plans_tables::{Counts, Rows, Words, put};

/// A lecture, with its course and its slot.
#[derive(Clone, Copy)]
pub struct Held {
    pub lecture: u32,
    pub course: usize,
    pub slot: usize,
}

/// A slot for each lecture, and the number of rules that they break.
#[derive(Drop)]
pub struct Periods {
    rooms: i32,
    courses: Vec<u32>,
    slots: Vec<u32>,
    /// The slots in which each course may be taught.
    pub open: Rows,
    /// The slots in which each course may not be taught: 1, and 0 elsewhere.
    barred: Counts,
    /// The courses that conflict with each course.
    opponents: Rows,
    /// The courses that conflict with each course, and the course itself, as a set.
    rivals: Words,
    /// The number of lectures in each slot that conflict with each course, its own among them.
    against: Counts,
    /// The number of lectures in each slot.
    sizes: Counts,
    /// The number of barred lectures, of pairs of lectures that conflict, and of lectures for which there is no room.
    pub broken: i64,
}

/// Returns the bit of a course in its word.
fn bit_of(course: u32) -> u64 {
    1u64.wrapping_shl(course % 64)
}

impl Periods {
    /// Returns the periods of no lectures. Fails if memory runs out.
    fn empty(alloc: Global, data: &InstanceData) -> Result<Periods, AllocError> {
        let (courses, slots) = (data.courses.len(), data.slots as usize);
        Ok(Periods {
            rooms: i32::try_from(data.room_count).unwrap_or(i32::MAX),
            courses: Vec::new(alloc),
            slots: Vec::new(alloc),
            open: Rows::new(alloc),
            barred: Counts::new(alloc, courses, slots, 0)?,
            opponents: Rows::new(alloc),
            rivals: Words::new(alloc, courses, courses.div_ceil(64))?,
            against: Counts::new(alloc, courses, slots, 0)?,
            sizes: Counts::new(alloc, slots, 1, 0)?,
            broken: 0,
        })
    }

    /// Reads an instance, and the slots of a plan of it. Fails if memory runs out.
    pub fn new(
        alloc: Global,
        instance: &Instance<'_>,
        data: &InstanceData,
        places: &[Place],
    ) -> Result<Periods, AllocError> {
        let mut periods = Periods::empty(alloc, data)?;
        let mut number: u32 = 0;
        for course in &data.courses {
            periods.open_slots(instance, number)?;
            periods.add_opponents(number, &course.opponents)?;
            for _ in 0..course.lectures {
                periods.courses.push(number)?;
            }
            number = number.saturating_add(1);
        }
        for place in places {
            periods.slots.push(place.slot)?;
        }
        periods.count_all();
        Ok(periods)
    }

    /// Adds the slots in which a course may be taught.
    fn open_slots(&mut self, instance: &Instance<'_>, course: u32) -> Result<(), AllocError> {
        let mut slot: u32 = 0;
        for day in 0..instance.days() {
            for period in 0..instance.periods() {
                if instance.unavailable(course, day, period) {
                    self.barred.put(course as usize, slot as usize, 1);
                } else {
                    self.open.push(slot)?;
                }
                slot = slot.saturating_add(1);
            }
        }
        self.open.end_row()
    }

    /// Adds the opponents of a course.
    fn add_opponents(&mut self, course: u32, opponents: &[u32]) -> Result<(), AllocError> {
        let row = course as usize;
        self.rivals.turn(row, row / 64, bit_of(course));
        for opponent in opponents {
            let word = *opponent as usize / 64;
            self.rivals.turn(row, word, bit_of(*opponent));
        }
        self.opponents.push_row(opponents)
    }

    /// Counts all lectures, and the rules that they break.
    fn count_all(&mut self) {
        let mut lecture: u32 = 0;
        for _ in 0..self.courses.len() {
            let held = self.held(lecture);
            self.broken = self
                .broken
                .wrapping_add(i64::from(self.against.get(held.course, held.slot)))
                .wrapping_add(i64::from(self.barred.get(held.course, held.slot)))
                .wrapping_add(i64::from(self.sizes.get(held.slot, 0) >= self.rooms));
            self.count(held.course, held.slot, 1);
            lecture = lecture.saturating_add(1);
        }
    }

    /// Returns a lecture with its course and its slot.
    pub fn held(&self, lecture: u32) -> Held {
        let index = lecture as usize;
        Held {
            lecture,
            course: self.courses.get(index).copied().unwrap_or(0) as usize,
            slot: self.slots.get(index).copied().unwrap_or(0) as usize,
        }
    }

    /// Checks whether each course has enough slots, and all lectures together have enough rooms.
    pub fn has_places(&self, data: &InstanceData) -> bool {
        for (number, course) in data.courses.iter().enumerate() {
            if course.lectures as usize > self.open.row(number).len() {
                return false;
            }
        }
        let places = (data.slots as usize).saturating_mul(data.room_count as usize);
        data.lectures <= places
    }

    /// Returns the number of lectures.
    pub fn lectures(&self) -> u32 {
        u32::try_from(self.courses.len()).unwrap_or(u32::MAX)
    }

    /// Adds a lecture of a course to the counts of a slot, or removes it from them: `more` is 1 or -1.
    fn count(&mut self, course: usize, slot: usize, more: i32) {
        self.against.add(course, slot, more);
        for opponent in self.opponents.row(course) {
            self.against.add(*opponent as usize, slot, more);
        }
        self.sizes.add(slot, 0, more);
    }

    /// Returns by how many more rules are broken once a lecture is in another slot, not counting rooms.
    fn more_conflicts(&self, held: Held, slot: usize) -> i64 {
        let entered = i64::from(self.against.get(held.course, slot));
        let left = i64::from(self.against.get(held.course, held.slot)).wrapping_sub(1);
        let barred = i64::from(self.barred.get(held.course, slot)).wrapping_sub(i64::from(
            self.barred.get(held.course, held.slot),
        ));
        entered.wrapping_sub(left).wrapping_add(barred)
    }

    /// Returns by how many more rules are broken once a lecture is in another slot.
    pub fn more_if_moved(&self, held: Held, slot: usize) -> i64 {
        let entered = i64::from(self.sizes.get(slot, 0) >= self.rooms);
        let left = i64::from(self.sizes.get(held.slot, 0) > self.rooms);
        self.more_conflicts(held, slot)
            .wrapping_add(entered)
            .wrapping_sub(left)
    }

    /// Returns by how many more rules are broken once two lectures have each other's slot.
    pub fn more_if_swapped(&self, one: Held, other: Held) -> i64 {
        let word = self.rivals.get(one.course, other.course / 64);
        let are_rivals = word & bit_of((other.course % 64) as u32) != 0;
        let both = if are_rivals { 2 } else { 0 };
        self.more_conflicts(one, other.slot)
            .wrapping_add(self.more_conflicts(other, one.slot))
            .wrapping_sub(both)
    }

    /// Puts a lecture into another slot, and breaks this many more rules.
    pub fn relocate(&mut self, held: Held, slot: usize, more: i64) {
        self.count(held.course, held.slot, -1);
        self.count(held.course, slot, 1);
        let number = u32::try_from(slot).unwrap_or(0);
        put(&mut self.slots, held.lecture as usize, number);
        self.broken = self.broken.wrapping_add(more);
    }
}
