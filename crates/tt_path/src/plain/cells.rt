//! What a plain path leaves possible, cell by cell.

ghost use Rattle.std.specs.Prelude.{◌≡◌, ◌<◌, ◌≤◌, ◌-◌, length};
ghost use Rattle.std.specs.List.{range_with_len, list_all};
ghost use Rattle.tt_instance.specs.Cells.{slot, cell};
ghost use Rattle.tt_instance.specs.Courses.{members, excess};
ghost use Rattle.tt_instance.specs.declared.limit.TheConstants.{MAX_SEATS};
ghost use Rattle.tt_path.specs.Live.{clash, is_barred, excludes, is_dead, is_live, live_period};
ghost use Rattle.tt_path.specs.Inner.Nested.{is_denied, is_excluded, numbers_given, is_lost, is_day_lost, is_room_lost, are_rooms_lost, is_course_lost};

use super::PlainPath;
use crate::facts::{Pattern, Who};
use std::ops::Range;
use tt_instance::{Cell, Instance};

/// Returns the numbers below a bound that agree with a number that may be given.
fn numbers_given(given: Option<u32>, count: u32) -> Range<u32>
    ensures { range_with_len result.start (result.end - result.start) ≡ numbers_given given count }
{
    match given {
        None => 0..count,
        Some(number) if number < count => number..number + 1,
        Some(number) => number..number,
    }
}

/// Returns whether two cells clash, so that no timetable can have both.
fn are_clashing(instance: &Instance<'_>, first: Cell, second: Cell) -> bool
    ensures { result ≡ clash instance.now first second }
{
    first != second
        && first.day == second.day
        && first.period == second.period
        && (first.room == second.room
            || first.course == second.course
            || instance.conflict(first.course, second.course))
}

impl<'p, 'i> PlainPath<'p, 'i> {
    fn is_denied(&self, cell: Cell) -> bool
        ensures { result ≡ is_denied self.now.problem self.now.facts cell }
    {
        self.facts.iter().any(|fact| !fact.holds && fact.pattern.is_match(self.instance, cell))
    }

    fn is_barred(&self, cell: Cell) -> bool
        ensures { result ≡ is_barred self.now.problem self.now.facts cell }
    {
        self.instance
            .unavailable(cell.course, cell.day, cell.period)
            || self.is_denied(cell)
    }

    // -- the cells that a pattern matches, each tested against one cell

    fn is_lost(&self, cell: Cell, other: Cell) -> bool
        ensures { result ≡ is_lost self.now.problem self.now.facts cell other }
    {
        are_clashing(self.instance, other, cell) || self.is_barred(other)
    }

    fn is_day_lost(&self, pattern: &Pattern, cell: Cell, course: u32, room: u32, day: u32) -> bool
        ensures { result
            ≡ is_day_lost self.now.problem self.now.facts pattern.now cell course room day }
    {
        let mut periods = numbers_given(pattern.period, self.instance.periods());
        periods.all(|period| {
            let other = Cell {
                course,
                room,
                day,
                period,
            };
            self.is_lost(cell, other)
        })
    }

    fn is_room_lost(&self, pattern: &Pattern, cell: Cell, course: u32, room: u32) -> bool
        ensures { result ≡ is_room_lost self.now.problem self.now.facts pattern.now cell course room }
    {
        let mut days = numbers_given(pattern.day, self.instance.days());
        days.all(|day| self.is_day_lost(pattern, cell, course, room, day))
    }

    fn are_rooms_lost(&self, pattern: &Pattern, cell: Cell, course: u32) -> bool
        ensures { result ≡ are_rooms_lost self.now.problem self.now.facts pattern.now cell course }
    {
        let mut rooms = numbers_given(pattern.room, self.instance.rooms());
        rooms.all(|room| self.is_room_lost(pattern, cell, course, room))
    }

    fn is_course_lost(&self, pattern: &Pattern, cell: Cell, course: u32) -> bool
        ensures { result ≡ is_course_lost self.now.problem self.now.facts pattern.now cell course }
    {
        course >= self.instance.courses() || self.are_rooms_lost(pattern, cell, course)
    }

    fn are_members_lost(&self, pattern: &Pattern, cell: Cell, curriculum: u32) -> bool
        requires { curriculum < length self.now.problem.curricula }
        ensures { result ≡ list_all (is_course_lost self.now.problem self.now.facts pattern.now cell)
            (members self.now.problem curriculum) }
    {
        self.instance
            .members(curriculum)
            .iter()
            .all(|course| self.is_course_lost(pattern, cell, *course))
    }

    fn is_excluding(&self, pattern: &Pattern, cell: Cell) -> bool
        ensures { result ≡ excludes self.now.problem self.now.facts pattern.now cell }
    {
        match pattern.who {
            Who::Course(course) => self.is_course_lost(pattern, cell, course),
            Who::Curriculum(curriculum) => {
                curriculum >= self.instance.curricula()
                    || self.are_members_lost(pattern, cell, curriculum)
            }
        }
    }

    // ---- dead and live cells

    fn is_excluded(&self, cell: Cell) -> bool
        ensures { result ≡ is_excluded self.now.problem self.now.facts cell }
    {
        self.facts.iter().any(|fact| fact.holds && self.is_excluding(&fact.pattern, cell))
    }

    /// Returns whether a cell is barred, or excluded by some yes-fact.
    pub(super) fn is_dead(&self, cell: Cell) -> bool
        ensures { result ≡ is_dead self.now.problem self.now.facts cell }
    {
        self.is_barred(cell) || self.is_excluded(cell)
    }

    /// Returns whether the cell with these numbers is live.
    pub(super) fn is_live(&self, course: u32, room: u32, day: u32, period: u32) -> bool
        ensures { result
            ≡ is_live self.now.problem self.now.facts (cell course room (slot day period)) }
    {
        let cell = Cell {
            course,
            room,
            day,
            period,
        };
        !self.is_dead(cell)
    }

    /// Returns whether some room gives a live cell of the course in the period.
    pub(super) fn is_live_period(&self, course: u32, day: u32, period: u32) -> bool
        ensures { result ≡ live_period self.now.problem self.now.facts course (slot day period) }
    {
        (0..self.instance.rooms()).any(|room| self.is_live(course, room, day, period))
    }

    /// Returns the number of students of a course for whom a room has no seat.
    pub(super) fn excess(&self, course: u32, room: u32) -> u64
        requires course { course < length self.now.problem.courses }
        requires room { room < length self.now.problem.rooms }
        ensures value { result ≡ excess self.now.problem course room }
        ensures within { result ≤ MAX_SEATS }
    {
        let students = self.instance.students(course);
        u64::from(students.saturating_sub(self.instance.capacity(room)))
    }
}
