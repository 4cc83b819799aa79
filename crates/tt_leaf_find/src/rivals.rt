//! Groups of courses that have more lectures than the larger rooms have live cells for them. Nothing is proved about the choice.

ghost use Rattle.std.specs.Prelude.{◌<◌, length};

use crate::grid::Grid;
use std::alloc::{AllocError, Global};
use tt_instance::Instance;

/// A group that grows from one course.
#[derive(Drop)]
pub struct Rivals {
    pub members: Vec<bool>,
    /// The rooms that count.
    rooms: Vec<usize>,
    /// The live cells of the members in these rooms, as bits: a row of words for each of the rooms.
    covered: Vec<u64>,
    words: usize,
    lectures: u64,
    cells: u64,
}

/// Returns whether a number of seats is more than this many.
fn is_more(number: u32, seats: Option<u32>) -> bool {
    match seats {
        Some(most) => most < number,
        None => true,
    }
}

/// Returns the rooms with more seats than this many.
fn larger_rooms(
    alloc: Global,
    instance: &Instance<'_>,
    seats: Option<u32>,
) -> Result<Vec<usize>, AllocError> {
    let mut rooms = Vec::new(alloc);
    for room in 0..instance.rooms() {
        if is_more(instance.capacity(room), seats) {
            rooms.push(room as usize)?;
        }
    }
    Ok(rooms)
}

/// Returns the number of lectures of a course, 0 if the course is out of range.
fn lectures(instance: &Instance<'_>, course: usize) -> u64 {
    if course < instance.courses() as usize {
        u64::from(instance.lectures(course as u32))
    } else {
        0
    }
}

/// Returns whether some room that doesn't count has too few seats for a course.
fn is_large(instance: &Instance<'_>, course: usize, seats: Option<u32>) -> bool {
    course < instance.courses() as usize && is_more(instance.students(course as u32), seats)
}

impl Rivals {
    /// Creates a group without courses, of the rooms with more seats than this many.
    fn none(
        alloc: Global,
        instance: &Instance<'_>,
        grid: &Grid,
        seats: Option<u32>,
    ) -> Result<Rivals, AllocError> {
        let rooms = larger_rooms(alloc, instance, seats)?;
        let covered = vec![in alloc; 0u64; rooms.len().saturating_mul(grid.words())]?;
        Ok(Rivals {
            members: vec![in alloc; false; instance.courses() as usize]?,
            rooms,
            covered,
            words: grid.words(),
            lectures: 0,
            cells: 0,
        })
    }

    /// Returns the live cells of a course in a row that no member has.
    fn new_bits(&self, grid: &Grid, course: usize, place: usize, word: usize) -> u64 {
        let room = self.rooms.get(place).copied().unwrap_or(usize::MAX);
        let at = place.saturating_mul(self.words).saturating_add(word);
        grid.word(course, room, word) & !self.covered.get(at).copied().unwrap_or(0)
    }

    fn new_in(&self, grid: &Grid, course: usize, place: usize) -> u64 {
        let mut total: u64 = 0;
        for word in 0..self.words {
            let bits = self.new_bits(grid, course, place, word);
            total = total.saturating_add(u64::from(bits.count_ones()));
        }
        total
    }

    /// Counts the cells that a course would add.
    fn new_cells(&self, grid: &Grid, course: usize) -> u64 {
        let mut total: u64 = 0;
        for place in 0..self.rooms.len() {
            total = total.saturating_add(self.new_in(grid, course, place));
        }
        total
    }

    fn cover(&mut self, grid: &Grid, course: usize, place: usize) {
        let room = self.rooms.get(place).copied().unwrap_or(usize::MAX);
        for word in 0..self.words {
            let at = place.saturating_mul(self.words).saturating_add(word);
            if let Some(bits) = self.covered.get_mut(at) {
                *bits |= grid.word(course, room, word);
            }
        }
    }

    /// Adds a course.
    fn add(&mut self, instance: &Instance<'_>, grid: &Grid, course: usize) {
        self.lectures = self.lectures.saturating_add(lectures(instance, course));
        self.cells = self.cells.saturating_add(self.new_cells(grid, course));
        for place in 0..self.rooms.len() {
            self.cover(grid, course, place);
        }
        if let Some(member) = self.members.get_mut(course) {
            *member = true;
        }
    }

    /// Returns the course, of those left, that adds the most lectures beyond its new cells, if it adds at least as many lectures as cells.
    fn next(
        &self,
        instance: &Instance<'_>,
        grid: &Grid,
        left: &[bool],
        seats: Option<u32>,
    ) -> Option<usize> {
        let mut found = None;
        let mut most = 0;
        for (course, is_left) in left.iter().enumerate() {
            if !*is_left
                || self.members.get(course).copied().unwrap_or(true)
                || !is_large(instance, course, seats)
            {
                continue;
            }
            let brought = lectures(instance, course).checked_sub(self.new_cells(grid, course));
            if let Some(gain) = brought
                && (found.is_none() || gain > most)
            {
                found = Some(course);
                most = gain;
            }
        }
        found
    }

    /// Returns whether the group has more lectures than cells.
    fn are_crowded(&self) -> bool {
        self.cells < self.lectures
    }
}

/// Returns the group that grows from a course, among those that are left and need more seats than this many; `None` if
/// the rooms with more seats have enough cells for it.
pub fn rivals_of(
    alloc: Global,
    instance: &Instance<'_>,
    grid: &Grid,
    left: &[bool],
    seats: Option<u32>,
    seed: usize,
) -> Result<Option<Vec<bool>>, AllocError> {
    if !is_large(instance, seed, seats) {
        return Ok(None);
    }
    let mut rivals = Rivals::none(alloc, instance, grid, seats)?;
    rivals.add(instance, grid, seed);
    for _ in 0..left.len() {
        let Some(course) = rivals.next(instance, grid, left, seats) else {
            break;
        };
        rivals.add(instance, grid, course);
    }
    if rivals.are_crowded() {
        Ok(Some(rivals.members))
    } else {
        Ok(None)
    }
}
