//! The live cells of a small instance, as bits: a row of periods for each course in each room.

ghost use Rattle.std.specs.Prelude.{◌<◌, length};

use std::alloc::{AllocError, Global};
use tt_leaf_rules::{slot_at, slot_count};
use tt_path::{Cell, Path};

/// The number of periods in one word.
const WORD: u32 = 64;

/// Rows of 64 periods to a word.
#[derive(Drop)]
pub struct Grid {
    rooms: usize,
    words: usize,
    bits: Vec<u64>,
}

/// Returns the live cells of a course in a room from a period on, as one word.
fn live_word<'i, P: Path<'i>>(path: &P, course: u32, room: u32, word: u32) -> u64
    requires course { course < length (P.problem path.now).courses }
    requires room { room < length (P.problem path.now).rooms }
{
    let instance = path.instance();
    let first = word.saturating_mul(WORD);
    let mut bits: u64 = 0;
    for place in first..slot_count(instance).min(first.saturating_add(WORD)) {
        let slot = slot_at(instance, place);
        let cell = Cell {
            course,
            room,
            day: slot.day,
            period: slot.period,
        };
        bits = (bits << 1) | u64::from(!path.dead(cell));
    }
    bits
}

fn push_row<'i, P: Path<'i>>(
    path: &P,
    bits: &mut Vec<u64>,
    course: u32,
    room: u32,
    words: u32,
) -> Result<(), AllocError>
    requires course { course < length (P.problem path.now).courses }
    requires room { room < length (P.problem path.now).rooms }
{
    for word in 0..words {
        bits.push(live_word(path, course, room, word))?;
    }
    Ok(())
}

fn push_rows<'i, P: Path<'i>>(
    path: &P,
    bits: &mut Vec<u64>,
    course: u32,
    words: u32,
) -> Result<(), AllocError>
    requires { course < length (P.problem path.now).courses }
{
    for room in 0..path.instance().rooms() {
        push_row(path, bits, course, room, words)?;
    }
    Ok(())
}

impl Grid {
    /// Creates the grid of the live cells of a path.
    pub fn new<'i, P: Path<'i>>(alloc: Global, path: &P) -> Result<Grid, AllocError> {
        let instance = path.instance();
        let words = slot_count(instance).div_ceil(WORD);
        let mut bits = Vec::new(alloc);
        for course in 0..instance.courses() {
            push_rows(path, &mut bits, course, words)?;
        }
        Ok(Grid {
            rooms: instance.rooms() as usize,
            words: words as usize,
            bits,
        })
    }

    /// Returns how many rooms the grid has.
    pub fn rooms(&self) -> usize {
        self.rooms
    }

    /// Returns how many words a row has.
    pub fn words(&self) -> usize {
        self.words
    }

    /// Returns a word of the periods in which a course has a live cell in a room.
    pub fn word(&self, course: usize, room: usize, word: usize) -> u64 {
        let row = course.saturating_mul(self.rooms).saturating_add(room);
        let place = row.saturating_mul(self.words).saturating_add(word);
        self.bits.get(place).copied().unwrap_or(0)
    }

    /// Returns whether a course has a live cell in a room.
    pub fn is_open(&self, course: usize, room: usize) -> bool {
        for word in 0..self.words {
            if self.word(course, room, word) != 0 {
                return true;
            }
        }
        false
    }

    fn word_of_any(&self, members: &[bool], room: usize, word: usize) -> u64 {
        let mut bits = 0;
        for (course, member) in members.iter().enumerate() {
            if *member {
                bits |= self.word(course, room, word);
            }
        }
        bits
    }

    /// Counts the periods in which some of the courses have a live cell in a room.
    pub fn open_periods(&self, members: &[bool], room: usize) -> u32 {
        let mut total: u32 = 0;
        for word in 0..self.words {
            total = total.saturating_add(self.word_of_any(members, room, word).count_ones());
        }
        total
    }
}
