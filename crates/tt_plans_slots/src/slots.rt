//! The courses of each slot.

ghost use Rattle.std.specs.Prelude.{◌≡◌, ◌<◌, ◌≤◌, ◌/◌, ◌%◌, ◌↔◌, ℕ, IsTrue, length, slice_index, slice_index_or, IfOk};
ghost use Rattle.std.specs.Bool.{OnTrue, OnFalse};
ghost use Rattle.tt_bits.specs.Inner.Bits.{has_bit};
ghost use Rattle.tt_plans_slots.specs.Teaching.{slot_count, taught, spare, KeepsPeriods, CanBeTaught, CanEnter, HasSpare, IsUntaught, AddsCourse, RemovesCourse, KeepsMost, RaisesMost};

use crate::course_set::CourseSet;
use crate::levels::levels_of;
use crate::spare::Spare;
use crate::tables::{clear_sets, empty_sets, full_spares, refill_spares};
use std::alloc::{AllocError, Global};
use std::marker::Model;
use tt_instance::Instance;

/// Which courses are taught in each slot, and how many more lectures each slot may take. Slots are the periods of the week, numbered day
/// by day.
#[derive(Drop)]
pub struct Slots<'a, 'i> {
    instance: &'a Instance<'i>,
    /// The level of each course.
    levels: Vec<u32>,
    /// The courses that are taught in each slot.
    sets: Vec<CourseSet>,
    spares: Vec<Spare>,
}

impl<'a, 'i> Model for Slots<'a, 'i> {
    ghost use Rattle.tt_plans_slots.specs.Teaching.{Teaching};
    ghost use Rattle.tt_plans_slots.specs.Inner.States.{teaching, AreLevels, IsTeaching};

    ghost Value = { Teaching };

    ghost view = { λ a. teaching a.instance.now a.sets.items a.spares.items };

    ghost invariant = { λ a. record {
      levels : AreLevels a.instance.now a.levels.items;
      teaching : IsTeaching (teaching a.instance.now a.sets.items a.spares.items);
    } };
}

impl<'a, 'i> Slots<'a, 'i> {
    /// Returns the slots of an instance, in which nothing is taught. No later call allocates memory.
    pub fn new(alloc: Global, instance: &'a Instance<'i>) -> Result<Slots<'a, 'i>, AllocError>
        ensures problem { IfOk result (λ s. s.problem ≡ instance.now) }
        ensures untaught { IfOk result IsUntaught }
    {
        let slots = instance.days() as usize * instance.periods() as usize;
        let levels = levels_of(alloc, instance)?;
        let sets = empty_sets(alloc, slots, instance.courses() as usize)?;
        let spares = full_spares(alloc, slots, instance.rooms())?;
        Ok(Slots {
            instance,
            levels,
            sets,
            spares,
        })
    }

    /// Removes all courses from all slots.
    pub fn clear(&mut self)
        ensures problem { self.new.problem ≡ self.old.problem }
        ensures untaught { IsUntaught self.new }
    {
        clear_sets(&mut self.sets, self.instance.courses() as usize);
        refill_spares(&mut self.spares, self.instance.rooms());
    }

    /// Checks whether a course may be taught in a slot besides those that are.
    fn can_be_taught(&self, course: usize, slot: usize) -> bool
        ensures { IsTrue result ↔ CanBeTaught self.now course slot }
    {
        if course >= self.instance.courses() as usize {
            return false;
        }
        if slot >= self.sets.len() {
            return false;
        }
        let periods = self.instance.periods() as usize;
        let (day, period) = ((slot / periods) as u32, (slot % periods) as u32);
        let courses = &self.sets[slot];
        if courses.has(course) {
            return false;
        }
        if courses.meets(self.instance.conflict_words(course as u32)) {
            return false;
        }
        !self.instance.unavailable(course as u32, day, period)
    }

    /// Checks whether a slot has spare at each level from that of a course on.
    fn has_spare(&self, course: usize, slot: usize) -> bool
        requires course { course < length self.now.problem.courses }
        requires slot { slot < slot_count self.now.problem }
        ensures { IsTrue result ↔ HasSpare self.now course slot }
    {
        let level = self.levels[course] as usize;
        self.spares[slot].is_left_from(level)
    }

    /// Adds a course to a slot, and takes from the slot's spare where there is some.
    fn put(&mut self, course: usize, slot: usize)
        requires { CanBeTaught self.old course slot }
        ensures problem { self.new.problem ≡ self.old.problem }
        ensures added { AddsCourse self.old self.new course slot }
        ensures most { RaisesMost self.old self.new course slot }
    {
        let level = self.levels[course] as usize;
        let courses = &mut self.sets[slot];
        courses.insert(course);
        let spare = &mut self.spares[slot];
        spare.take_from(level);
    }

    /// Adds a course to a slot, if it may be taught there and the slot has spare for it. Returns whether it does.
    pub fn enter(&mut self, course: usize, slot: usize) -> bool
        ensures entered { IsTrue result ↔ CanEnter self.old course slot }
        ensures problem { self.new.problem ≡ self.old.problem }
        ensures added { OnTrue result (AddsCourse self.old self.new course slot) }
        ensures most { KeepsMost self.old self.new }
        ensures refused { OnFalse result (self.new ≡ self.old) }
    {
        if !self.can_be_taught(course, slot) {
            return false;
        }
        if !self.has_spare(course, slot) {
            return false;
        }
        self.put(course, slot);
        true
    }

    /// Adds a course to a slot, if it may be taught there. Where the slot has no spare for it, the slot may take one more from then on.
    /// Returns whether the course was added.
    pub fn admit(&mut self, course: usize, slot: usize) -> bool
        ensures admitted { IsTrue result ↔ CanBeTaught self.old course slot }
        ensures problem { self.new.problem ≡ self.old.problem }
        ensures added { OnTrue result (AddsCourse self.old self.new course slot) }
        ensures most { OnTrue result (RaisesMost self.old self.new course slot) }
        ensures refused { OnFalse result (self.new ≡ self.old) }
    {
        if !self.can_be_taught(course, slot) {
            return false;
        }
        self.put(course, slot);
        true
    }

    /// Removes a course from a slot, if it is taught there. Returns whether it was.
    pub fn leave(&mut self, course: usize, slot: usize) -> bool
        ensures left { result ≡ taught self.old slot course }
        ensures problem { self.new.problem ≡ self.old.problem }
        ensures removed { OnTrue result (RemovesCourse self.old self.new course slot) }
        ensures most { KeepsMost self.old self.new }
        ensures refused { OnFalse result (self.new ≡ self.old) }
    {
        if !self.is_taught(course, slot) {
            return false;
        }
        let level = self.levels[course] as usize;
        let courses = &mut self.sets[slot];
        courses.remove(course);
        let spare = &mut self.spares[slot];
        spare.give_from(level);
        true
    }

    /// Checks whether a course is taught in a slot.
    pub fn is_taught(&self, course: usize, slot: usize) -> bool
        ensures { result ≡ taught self.now slot course }
    {
        self.sets
            .get(slot)
            .is_some_and(|courses| courses.has(course))
    }

    /// Returns the courses that are taught in a slot, as words: course k is the bit k % 64 of the word k / 64. There are no words if there
    /// is no such slot.
    pub fn taught_in(&self, slot: usize) -> &[u64]
        ensures bits { (c : ℕ) → has_bit (slice_index_or result.now (c / 64) 0) (c % 64) ≡ taught self.now slot c }
        ensures none { slot_count self.now.problem ≤ slot → length result.now ≡ 0 }
        // The rules hold in every state.
        ensures kept { KeepsPeriods self.now.problem (taught self.now) }
    {
        match self.sets.get(slot) {
            Some(courses) => courses.words(),
            None => &[],
        }
    }

    /// Returns the spare of a slot at each level; nothing if there is no such slot.
    pub fn spare_in(&self, slot: usize) -> &[u32]
        ensures value { (k : ℕ) → slice_index result.now k ≡ spare self.now slot k }
        ensures len { slot < slot_count self.now.problem → length result.now ≡ length self.now.problem.rooms }
        ensures none { slot_count self.now.problem ≤ slot → length result.now ≡ 0 }
    {
        match self.spares.get(slot) {
            Some(spare) => spare.as_slice(),
            None => &[],
        }
    }
}
