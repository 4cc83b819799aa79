//! The rents of rooms that prove most.
//!
//! A lecture of 30 students in a room of 20 seats costs a point for each **size** from 21 to 30: those above the seats of the room, up to
//! the students. A size is **short** if more lectures have at least so many students than there are places in rooms with at least so many
//! seats; the difference is what the size costs at least in each timetable. The rent of a room is the number of short sizes up to its
//! seats. With these rents a lecture pays in each room at least a point for each short size up to its students, so the bound is the sum of
//! all differences, and no rents that are the same in all periods prove more. Since they are the same, the lectures of a course pay least
//! all in one room, and no stability comes in.

use crate::places::periods_of_week;
use std::alloc::{AllocError, Global};
use tt_instance::Instance;
use tt_prices_text::MAX_AMOUNT;

/// The lectures of a course, or a room.
#[derive(Clone, Copy)]
enum Subject {
    Lectures(u32),
    Room(u32),
}

/// The lectures of a course with their students, or a room with its seats.
#[derive(Clone, Copy)]
struct Measured {
    size: u32,
    subject: Subject,
}

/// Returns all courses and rooms, the smallest first.
fn list_measured(alloc: Global, instance: &Instance<'_>) -> Result<Vec<Measured>, AllocError> {
    let mut list = Vec::new(alloc);
    for course in 0..instance.courses() {
        list.push(Measured {
            size: instance.students(course),
            subject: Subject::Lectures(instance.lectures(course)),
        })?;
    }
    for room in 0..instance.rooms() {
        list.push(Measured {
            size: instance.capacity(room),
            subject: Subject::Room(room),
        })?;
    }
    list.sort_unstable_by_key(|measured| measured.size);
    Ok(list)
}

/// The sizes so far, the smallest first.
#[derive(Clone, Copy)]
struct Sweep {
    /// The size that was reached, and the number of short sizes up to it.
    size: u32,
    short: u32,
    /// The lectures and the places in rooms that are still to come.
    lectures: u64,
    places: u64,
    /// What the short sizes cost at least.
    points: u64,
}

impl Sweep {
    /// Returns the sweep before the first size.
    fn new(instance: &Instance<'_>) -> Sweep {
        let mut lectures: u64 = 0;
        for course in 0..instance.courses() {
            lectures = lectures.saturating_add(u64::from(instance.lectures(course)));
        }
        let places = u64::from(instance.rooms()) * u64::from(periods_of_week(instance));
        Sweep {
            size: 0,
            short: 0,
            lectures,
            places,
            points: 0,
        }
    }

    /// Goes on to a size.
    fn advance(&mut self, size: u32) {
        let missing = self.lectures.saturating_sub(self.places);
        if missing > 0 {
            let more = size.saturating_sub(self.size);
            self.short = self.short.saturating_add(more).min(MAX_AMOUNT);
            let points = missing.saturating_mul(u64::from(more));
            self.points = self.points.saturating_add(points);
        }
        self.size = size;
    }
}

/// The rent of each room, the same in all periods, and the bound in cost points.
#[derive(Drop)]
pub struct Rents {
    pub of_rooms: Vec<u32>,
    pub points: u64,
}

/// Returns the rents that prove most.
pub fn rents_of(alloc: Global, instance: &Instance<'_>) -> Result<Rents, AllocError> {
    let periods = u64::from(periods_of_week(instance));
    let mut of_rooms = vec![in alloc; 0u32; instance.rooms() as usize]?;
    let mut sweep = Sweep::new(instance);
    for measured in list_measured(alloc, instance)? {
        sweep.advance(measured.size);
        match measured.subject {
            Subject::Lectures(lectures) => {
                sweep.lectures = sweep.lectures.saturating_sub(u64::from(lectures));
            }
            Subject::Room(room) => {
                sweep.places = sweep.places.saturating_sub(periods);
                if let Some(rent) = of_rooms.get_mut(room as usize) {
                    *rent = sweep.short;
                }
            }
        }
    }
    Ok(Rents {
        of_rooms,
        points: sweep.points,
    })
}
