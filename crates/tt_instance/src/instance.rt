//! Instances of the timetabling problem.

ghost use Rattle.std.specs.Prelude.{◌≡◌, ◌<◌, ◌≤◌, ◌*◌, ◌+◌, ◌/◌, ◌%◌, ◌++◌, ℕ, true, not, All, IfOk, length, slice_get, slice_index_or, IfSome, Some};
ghost use Rattle.tt_list_laws.specs.Words.{each_two};
ghost use Rattle.tt_bits.specs.Inner.Bits.{has_bit};
ghost use Rattle.tt_text.specs.Texts.{index_of_name};
ghost use Rattle.tt_instance.specs.Barring.{IsUnavailabilityOf, with_unavailabilities};
ghost use Rattle.tt_instance.specs.Limits.{IsInstance, same_unavailability};
ghost use Rattle.tt_instance.specs.Seen.{problem_seen, unavailabilities_seen};
ghost use Rattle.tt_instance.specs.Inner.Indexed.{IsIndexedParts, IsExcluding};
ghost use Rattle.tt_instance.specs.Courses.{no_course, lectures, min_days, students, capacity, members, course_ids, room_ids, curriculum_ids, teachers, in_curriculum, conflict, unavailable};

use crate::barred::{add_rows, is_barred};
use crate::limit::{
    MAX_COURSES, MAX_CURRICULA, MAX_DAYS, MAX_LECTURES, MAX_MEMBERS, MAX_MIN_DAYS, MAX_PERIODS,
    MAX_ROOMS, MAX_SEATS, MAX_SLOTS, MAX_UNAVAILABILITIES,
};
use crate::marks::{Marks, has_at};
use crate::parts::Parts;
use crate::rows::UnavailabilityRow;
use std::alloc::AllocError;
use std::marker::Model;

/// An instance. Courses, rooms, curricula, teachers, days and periods of a day are numbered from 0.
pub struct Instance<'a> {
    parts: Parts<'a>,
    conflicts: Vec<Marks>,
}

impl<'a> Model for Instance<'a> {
    ghost use Rattle.tt_instance.specs.Problem.{Problem};

    ghost Value = { Problem };

    ghost use Rattle.tt_instance.specs.Limits.{IsInstance};
    ghost use Rattle.tt_instance.specs.Seen.{problem_seen};
    ghost use Rattle.tt_instance.specs.Inner.Indexed.{IsIndexedParts, IsExcluding};

    ghost view = { λ a. problem_seen a.parts };

    ghost invariant = { λ a. record {
      instance : IsInstance (problem_seen a.parts);
      indexed : IsIndexedParts a.parts;
      excluding : IsExcluding (problem_seen a.parts) a.conflicts.items;
    } };
}

// Dropping an instance is one call instead of many at each place.
impl<'a> Drop for Instance<'a> {
    fn drop(self) {
        let Instance {
            parts: _,
            conflicts: _,
        } = self;
    }
}

impl<'a> Instance<'a> {
    /// Creates the instance of these parts. The marks say for each course with which courses it conflicts.
    pub fn new(parts: Parts<'a>, conflicts: Vec<Marks>) -> Instance<'a>
        requires instance { IsInstance (problem_seen parts) }
        requires indexed { IsIndexedParts parts }
        requires excluding { IsExcluding (problem_seen parts) conflicts.items }
        ensures { result ≡ problem_seen parts.entry }
    {
        Instance { parts, conflicts }
    }

    /// Returns the parts.
    pub fn parts(&self) -> &Parts<'a>
        ensures value { problem_seen result.now ≡ self.now }
        ensures instance { IsInstance self.now }
    {
        &self.parts
    }

    /// Makes more periods unavailable. The instance is consumed even if memory runs out.
    pub fn bar(self, rows: &[UnavailabilityRow]) -> Result<Instance<'a>, AllocError>
        requires within { length self.unavailabilities + length rows.now ≤ MAX_UNAVAILABILITIES }
        requires inside { All (IsUnavailabilityOf self) (unavailabilities_seen rows.now) }
        requires once { each_two (λ a b. not (same_unavailability a b)) (self.unavailabilities ++ unavailabilities_seen rows.now) ≡ true }
        ensures { IfOk result (λ i. i ≡ with_unavailabilities self.entry (self.entry.unavailabilities ++ unavailabilities_seen rows.now)) }
    {
        let Instance {
            mut parts,
            conflicts,
        } = self;
        let days = parts.days;
        add_rows(&mut parts.unavailabilities, days, rows)?;
        Ok(Instance { parts, conflicts })
    }

    /// Returns how many tokens the name has.
    pub fn name_len(&self) -> usize
        ensures { result ≡ length self.now.name }
    {
        self.parts.name.len()
    }

    /// Returns a token of the name.
    pub fn name_token(&self, index: usize) -> &'a [u8]
        requires { index < length self.now.name }
        ensures { slice_get self.now.name index ≡ Some result.now }
    {
        self.parts.name[index]
    }

    /// Returns the days of the week, 1 to 64.
    pub fn days(&self) -> u32
        ensures value { result ≡ self.now.days }
        ensures positive { 0 < result }
        ensures within { result ≤ MAX_DAYS }
        // The properties of every instance.
        ensures instance { IsInstance self.now }
    {
        self.parts.days
    }

    /// Returns the periods of a day, 1 to 64; the week has at most 512.
    pub fn periods(&self) -> u32
        ensures value { result ≡ self.now.periods }
        ensures positive { 0 < result }
        ensures within { result ≤ MAX_PERIODS }
        ensures week { self.now.days * result ≤ MAX_SLOTS }
    {
        self.parts.periods
    }

    /// Returns the number of courses.
    pub fn courses(&self) -> u32
        ensures value { result ≡ length self.now.courses }
        ensures within { result ≤ MAX_COURSES }
    {
        self.parts.courses.rows.len() as u32
    }

    /// Returns the number of rooms.
    pub fn rooms(&self) -> u32
        ensures value { result ≡ length self.now.rooms }
        ensures within { result ≤ MAX_ROOMS }
    {
        self.parts.rooms.len() as u32
    }

    /// Returns the number of curricula.
    pub fn curricula(&self) -> u32
        ensures value { result ≡ length self.now.curricula }
        ensures within { result ≤ MAX_CURRICULA }
    {
        self.parts.curricula.len() as u32
    }

    /// Returns the number of teachers.
    pub fn teachers(&self) -> u32
        ensures value { result ≡ length (teachers self.now) }
        ensures within { result ≤ MAX_COURSES }
    {
        self.parts.courses.teachers.len() as u32
    }

    /// Returns the number of unavailabilities.
    pub fn unavailabilities(&self) -> u32
        ensures value { result ≡ length self.now.unavailabilities }
        ensures within { result ≤ MAX_UNAVAILABILITIES }
    {
        self.parts.unavailabilities.rows.len() as u32
    }

    /// Returns how many lectures a course needs.
    pub fn lectures(&self, course: u32) -> u32
        requires { course < length self.now.courses }
        ensures value { result ≡ lectures self.now course }
        ensures within { result ≤ MAX_LECTURES }
    {
        self.parts.courses.rows[course as usize].lectures
    }

    /// Returns the minimum number of days over which a course should be spread.
    pub fn min_days(&self, course: u32) -> u32
        requires { course < length self.now.courses }
        ensures value { result ≡ min_days self.now course }
        ensures within { result ≤ MAX_MIN_DAYS }
    {
        self.parts.courses.rows[course as usize].min_days
    }

    /// Returns the number of students of a course.
    pub fn students(&self, course: u32) -> u32
        requires { course < length self.now.courses }
        ensures value { result ≡ students self.now course }
        ensures within { result ≤ MAX_SEATS }
    {
        self.parts.courses.rows[course as usize].students
    }

    /// Returns the number of seats of a room.
    pub fn capacity(&self, room: u32) -> u32
        requires { room < length self.now.rooms }
        ensures value { result ≡ capacity self.now room }
        ensures within { result ≤ MAX_SEATS }
    {
        self.parts.rooms[room as usize].capacity
    }

    /// Returns the members of a curriculum, each once, in the order of their first mention.
    pub fn members(&self, curriculum: u32) -> &[u32]
        requires { curriculum < length self.now.curricula }
        ensures value { result.now ≡ members self.now curriculum }
        ensures within { length result.now ≤ MAX_MEMBERS }
    {
        self.parts.curricula[curriculum as usize]
            .members
            .courses
            .as_slice()
    }

    /// Returns an unavailability: the course, the day and the period.
    pub fn unavailability(&self, index: u32) -> (u32, u32, u32)
        requires { index < length self.now.unavailabilities }
        ensures { slice_get self.now.unavailabilities index
            ≡ Some (record { course = result.0; day = result.1; period = result.2 }) }
    {
        let row = self.parts.unavailabilities.rows[index as usize];
        (row.course, row.day, row.period)
    }

    /// Returns the number of a course's teacher.
    pub fn teacher_of(&self, course: u32) -> u32
        requires { course < length self.now.courses }
        ensures value { index_of_name (teachers self.now)
            (slice_index_or self.now.courses course no_course).teacher ≡ Some result }
        ensures within { result < length (teachers self.now) }
    {
        self.parts.courses.rows[course as usize].teacher
    }

    /// Returns the name of a teacher as it is in the file.
    pub fn teacher_name(&self, teacher: u32) -> &'a [u8]
        requires { teacher < length (teachers self.now) }
        ensures { slice_get (teachers self.now) teacher ≡ Some result.now }
    {
        self.parts.courses.teachers.name(teacher as usize)
    }

    /// Returns the name of a course as it is in the file.
    pub fn course_id(&self, course: u32) -> &'a [u8]
        requires { course < length self.now.courses }
        ensures { slice_get (course_ids self.now) course ≡ Some result.now }
    {
        self.parts.courses.rows[course as usize].id
    }

    /// Returns the name of a room as it is in the file.
    pub fn room_id(&self, room: u32) -> &'a [u8]
        requires { room < length self.now.rooms }
        ensures { slice_get (room_ids self.now) room ≡ Some result.now }
    {
        self.parts.rooms[room as usize].id
    }

    /// Returns the name of a curriculum as it is in the file.
    pub fn curriculum_id(&self, curriculum: u32) -> &'a [u8]
        requires { curriculum < length self.now.curricula }
        ensures { slice_get (curriculum_ids self.now) curriculum ≡ Some result.now }
    {
        self.parts.curricula[curriculum as usize].id
    }

    /// Returns whether a course is a member of a curriculum; false if either is out of range.
    pub fn in_curriculum(&self, curriculum: u32, course: u32) -> bool
        ensures { result ≡ in_curriculum self.now curriculum course }
    {
        self.parts
            .curricula
            .get(curriculum as usize)
            .is_some_and(|row| row.members.marks.has(course as usize))
    }

    /// Returns whether two different courses conflict; false if either is out of range.
    pub fn conflict(&self, first: u32, second: u32) -> bool
        ensures { result ≡ conflict self.now first second }
    {
        has_at(&self.conflicts, first as usize, second as usize)
    }

    /// Returns the courses that conflict with a course, as words: course k is the bit k % 64 of the word k / 64. There are no words if the
    /// course is out of range.
    pub fn conflict_words(&self, course: u32) -> &[u64]
        ensures { (other : ℕ) → other < length self.now.courses →
            has_bit (slice_index_or result.now (other / 64) 0) (other % 64) ≡ conflict self.now course other }
    {
        match self.conflicts.get(course as usize) {
            Some(marks) => marks.words(),
            None => &[],
        }
    }

    /// Returns whether a period is unavailable to a course; false if the course, the day or the period is out of range.
    pub fn unavailable(&self, course: u32, day: u32, period: u32) -> bool
        ensures { result ≡ unavailable self.now course day period }
    {
        is_barred(&self.parts.unavailabilities.marks, course, day, period)
    }
}
