//! The possible lectures of a day, and their costs.

use crate::board::Board;
use crate::letters::{Alphabet, Letter, MOST_LETTERS, priced};
use std::alloc::{AllocError, Global};
use tt_instance::ISOLATED_COST;
use tt_replan_tables::{Group, MOST_STATES, POINT, put, put_next};

/// The maximum number of sequences of sets of a day.
const MOST_SEQUENCES: usize = 50_000;

/// The bits above each byte's seven, which a subtraction in a byte borrows from.
pub const GUARDS: u32 = 0x8080_8080;

/// The cost of a curriculum that is isolated in a period.
const ISOLATED: u32 = ISOLATED_COST * POINT;

/// A number that is higher than the cost of any plan.
pub const DEAR: u32 = 1_000_000_000;

/// The lectures of a day, and their lowest cost.
#[derive(Clone, Copy)]
pub struct Vector {
    pub cost: u32,
    /// The lectures of each member, a byte each.
    pub counts: u32,
    /// The amount that they add to the state.
    pub index: u32,
    /// The sets of members by periods, four bits each, the last period lowest.
    pub spelled: u64,
}

impl Vector {
    pub const NONE: Vector = Vector {
        cost: DEAR,
        counts: 0,
        index: 0,
        spelled: 0,
    };
}

/// The first periods of a day.
#[derive(Clone, Copy)]
struct Front {
    vector: Vector,
    /// The lectures that are left, a byte each.
    left: u32,
    /// The curricula of the last period, and of the one before.
    last: u128,
    before: u128,
}

/// Returns the bytes that are left, or `None` if there are fewer than the lectures.
pub fn left_after(left: u32, counts: u32) -> Option<u32> {
    let rest = (left | GUARDS).wrapping_sub(counts);
    if rest & GUARDS == GUARDS {
        Some(rest & !GUARDS)
    } else {
        None
    }
}

/// Returns the cost of the curricula that are isolated in a period.
pub fn isolation(before: u128, here: u128, after: u128) -> u32 {
    (here & !before & !after)
        .count_ones()
        .wrapping_mul(ISOLATED)
}

impl Front {
    /// Returns the beginning of a day.
    fn first(all: u32) -> Front {
        Front {
            vector: Vector {
                cost: 0,
                ..Vector::NONE
            },
            left: all,
            last: 0,
            before: 0,
        }
    }

    /// Returns the front with a set of members in the next period, if enough lectures are left for it and it costs no more than the limit.
    fn with(self, letter: Letter, limit: u32) -> Option<Front> {
        let cost = self
            .vector
            .cost
            .wrapping_add(letter.price)
            .wrapping_add(isolation(self.before, self.last, letter.curricula));
        if cost > limit {
            return None;
        }
        Some(Front {
            vector: Vector {
                cost,
                counts: self.vector.counts.wrapping_add(letter.counts),
                index: self.vector.index.wrapping_add(letter.index),
                spelled: self.vector.spelled << 4 | u64::from(letter.members),
            },
            left: left_after(self.left, letter.counts)?,
            last: letter.curricula,
            before: self.last,
        })
    }
}

/// The possible lectures of one day.
#[derive(Drop)]
pub struct Speller {
    /// The sets of members of each period of the day.
    letters: Vec<Letter>,
    /// The number of sets in each period.
    counts: Vec<usize>,
    /// The cheapest day for each state.
    cheapest: Vec<Vector>,
    /// The states of days that were found.
    found: Vec<u32>,
    found_count: usize,
}

impl Speller {
    /// Makes room for the letters of a day with this many periods. Fails if memory runs out.
    pub fn new(alloc: Global, periods: usize) -> Result<Speller, AllocError> {
        Ok(Speller {
            letters: vec![in alloc; Letter::NONE; periods.saturating_mul(MOST_LETTERS)]?,
            counts: vec![in alloc; 0usize; periods]?,
            cheapest: vec![in alloc; Vector::NONE; MOST_STATES as usize]?,
            found: vec![in alloc; 0u32; MOST_STATES as usize]?,
            found_count: 0,
        })
    }

    fn count(&self, period: usize) -> usize {
        self.counts.get(period).copied().unwrap_or(0)
    }

    fn push(&mut self, period: usize, letter: Letter) {
        let count = self.count(period);
        let index = period.wrapping_mul(MOST_LETTERS).wrapping_add(count);
        put(&mut self.counts, period, count.saturating_add(1));
        put(&mut self.letters, index, letter);
    }

    /// Finds the sets of members for each period of a day. Returns whether their number is within the limit.
    fn find_letters(
        &mut self,
        board: &Board,
        group: &Group,
        alphabet: &Alphabet,
        first: usize,
    ) -> bool {
        let mut sequences: usize = 1;
        self.counts.fill(0);
        for period in 0..board.week.periods {
            let slot = first.wrapping_add(period);
            for letter in alphabet.letters() {
                if let Some(letter) = priced(*letter, board, group, slot) {
                    self.push(period, letter);
                }
            }
            sequences = sequences.saturating_mul(self.count(period));
        }
        sequences <= MOST_SEQUENCES
    }

    /// Returns the cheapest day so far of a state.
    fn best(&self, state: u32) -> Vector {
        self.cheapest
            .get(state as usize)
            .copied()
            .unwrap_or(Vector::NONE)
    }

    /// Stores a whole day, if it is the cheapest of its state.
    fn keep(&mut self, front: Front, limit: u32) {
        let vector = front.vector;
        let cost = vector
            .cost
            .wrapping_add(isolation(front.before, front.last, 0));
        let best = self.best(vector.index).cost;
        if cost > limit || cost >= best {
            return;
        }
        put(
            &mut self.cheapest,
            vector.index as usize,
            Vector { cost, ..vector },
        );
        if best == DEAR {
            self.found_count = put_next(&mut self.found, self.found_count, vector.index);
        }
    }

    /// Tries all ways to continue a day.
    fn spell(&mut self, period: usize, left: usize, front: Front, limit: u32) {
        if left == 0 {
            self.keep(front, limit);
            return;
        }
        let first = period.wrapping_mul(MOST_LETTERS);
        let count = self.count(period);
        for number in first..first.saturating_add(count) {
            if let Some(letter) = self.letters.get(number).copied()
                && let Some(front) = front.with(letter, limit)
            {
                self.spell(period.wrapping_add(1), left - 1, front, limit);
            }
        }
    }

    /// Finds the possible lectures of a day within the limit. Returns whether the day could be searched.
    pub fn find(
        &mut self,
        board: &Board,
        group: &Group,
        alphabet: &Alphabet,
        first: usize,
        limit: u32,
    ) -> bool {
        if !self.find_letters(board, group, alphabet, first) {
            return false;
        }
        self.found_count = 0;
        self.spell(0, board.week.periods, Front::first(group.all()), limit);
        true
    }

    /// Removes and returns the day that was found with this number, if there is one.
    pub fn take(&mut self, number: usize) -> Option<Vector> {
        if number >= self.found_count {
            return None;
        }
        let state = self.found.get(number).copied()?;
        let vector = self.best(state);
        put(&mut self.cheapest, state as usize, Vector::NONE);
        Some(vector)
    }
}
