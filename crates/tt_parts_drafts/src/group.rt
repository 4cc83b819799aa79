//! A group in a climb: its program, its prices, and the timetable that it chose.

use crate::aim::{Aim, SCALE};
use crate::draft::Draft;
use crate::fixed::{ONE, product, rounded, whole};
use crate::habits::{Habits, is_in};
use rand_pcg::Pcg32;
use std::alloc::AllocError;
use tt_groups::MAX_PRICE;
use tt_parts_least::lectures_of;
use tt_parts_priced::{Program, Tables};

/// The part of a direction that stays from step to step, in tenths.
pub const MOMENTUM: i64 = 7;

/// The number of parts.
pub const PARTS: i64 = 10;

/// A group and its program. Its prices are those of all courses slot by slot: with fractions, whole, and the best ones.
#[derive(Drop)]
pub struct Group {
    pub draft: Draft,
    pub program: Program,
    pub habits: Habits,
    tables: Tables,
    lectures: Vec<u32>,
    exact: Vec<i64>,
    drift: Vec<i64>,
    prices: Vec<i64>,
    best: Vec<i64>,
    plan: Vec<u64>,
}

/// Returns what is left of a direction, with a new one added.
pub fn drifted(drift: i64, more: i64) -> i64 {
    (drift.saturating_mul(MOMENTUM) / PARTS).saturating_add(more)
}

/// Returns the square of a number with a fraction.
pub fn square(number: i64) -> i64 {
    product(number, number)
}

/// Adds to a number in a place.
fn add_at(numbers: &mut [i64], place: usize, more: i64) {
    if let Some(number) = numbers.get_mut(place) {
        *number = number.saturating_add(more);
    }
}

/// Returns the nearest price.
pub fn within(price: i64) -> i64 {
    let most = i64::from(MAX_PRICE);
    price.min(most).max(-most)
}

/// Checks whether the course with this index is in the set of a slot.
fn has(plan: &[u64], index: usize, slot: usize) -> bool {
    is_in(plan.get(slot).copied().unwrap_or(0), index)
}

impl Group {
    /// Returns a group whose best prices are these, of all courses slot by slot.
    pub fn new(
        aim: &Aim<'_, '_>,
        draft: Draft,
        program: Program,
        best: Vec<i64>,
    ) -> Result<Group, AllocError> {
        let alloc = aim.alloc;
        let count = best.len();
        let mut lectures = Vec::new(alloc);
        for course in program.courses() {
            lectures.push(lectures_of(aim.instance, *course))?;
        }
        let mut group = Group {
            habits: Habits::new(alloc, lectures.len(), aim.slots)?,
            tables: program.tables(alloc)?,
            draft,
            program,
            lectures,
            exact: vec![in alloc; 0i64; count]?,
            drift: vec![in alloc; 0i64; count]?,
            prices: vec![in alloc; 0i64; count]?,
            best,
            plan: vec![in alloc; 0u64; aim.slots]?,
        };
        group.restore();
        Ok(group)
    }

    /// Rounds the prices.
    pub fn round(&mut self) {
        for (price, exact) in self.prices.iter_mut().zip(&self.exact) {
            *price = within(rounded(*exact));
        }
    }

    /// Gives the courses whose last group has this number the prices that the other groups leave.
    pub fn settle(&mut self, aim: &Aim<'_, '_>, last: &[usize], number: usize, totals: &[i64]) {
        let courses = self.program.courses();
        let width = courses.len();
        for (index, course) in courses.iter().enumerate() {
            if last.get(*course as usize).copied() != Some(number) {
                continue;
            }
            for slot in 0..aim.slots {
                let sum = totals
                    .get(aim.place(*course as usize, slot))
                    .copied()
                    .unwrap_or(0);
                let place = slot.wrapping_mul(width).wrapping_add(index);
                if let Some(price) = self.prices.get_mut(place) {
                    *price = within(sum.saturating_neg());
                }
            }
        }
    }

    /// Returns the least that the group pays at its prices, and chooses a timetable that pays so much.
    pub fn value(&mut self, rng: &mut Pcg32) -> i64 {
        let scale = i64::from(SCALE);
        let value = self.program.evaluate(scale, &self.prices, &mut self.tables);
        self.program.trace(scale, &self.tables, rng, &mut self.plan);
        value
    }

    /// Returns the least that the group pays at its best prices.
    pub fn value_at_best(&mut self) -> i64 {
        self.program
            .evaluate(i64::from(SCALE), &self.best, &mut self.tables)
    }

    /// Keeps the prices as the best ones.
    pub fn keep(&mut self) {
        for (best, price) in self.best.iter_mut().zip(&self.prices) {
            *best = *price;
        }
    }

    /// Goes back to the best prices.
    pub fn restore(&mut self) {
        for (exact, best) in self.exact.iter_mut().zip(&self.best) {
            *exact = whole(*best);
        }
        self.drift.fill(0);
    }

    /// Returns the best price of the course with this index in a slot.
    pub fn best_price(&self, index: usize, slot: usize) -> i64 {
        let width = self.program.courses().len();
        let place = slot.wrapping_mul(width).wrapping_add(index);
        self.best.get(place).copied().unwrap_or(0)
    }

    /// Returns the best price of a course in a slot; 0 if the group doesn't concern it.
    pub fn best_price_of(&self, course: u32, slot: usize) -> i64 {
        match self.index_of(course) {
            Some(index) => self.best_price(index, slot),
            None => 0,
        }
    }

    /// Returns the number of bits that count the lectures of the course with this index.
    pub fn bits(&self, index: usize) -> i64 {
        let lectures = self.lectures.get(index).copied().unwrap_or(0);
        i64::from(u32::BITS - lectures.leading_zeros())
    }

    /// Returns the index of a course.
    pub fn index_of(&self, course: u32) -> Option<usize> {
        self.program
            .courses()
            .iter()
            .position(|other| *other == course)
    }

    /// Adds the prices to those of all groups.
    pub fn add_prices(&self, aim: &Aim<'_, '_>, totals: &mut [i64]) {
        let width = self.program.courses().len();
        for (index, course) in self.program.courses().iter().enumerate() {
            for slot in 0..aim.slots {
                let place = slot.wrapping_mul(width).wrapping_add(index);
                let price = self.prices.get(place).copied().unwrap_or(0);
                add_at(totals, aim.place(*course as usize, slot), price);
            }
        }
    }

    /// Counts a vote for each slot in which a course is taught.
    pub fn vote(&self, aim: &Aim<'_, '_>, votes: &mut [u32]) {
        for (index, course) in self.program.courses().iter().enumerate() {
            for slot in 0..aim.slots {
                if has(&self.plan, index, slot) {
                    if let Some(count) = votes.get_mut(aim.place(*course as usize, slot)) {
                        *count = count.saturating_add(1);
                    }
                }
            }
        }
    }

    /// Turns the direction towards what the group chose and the others didn't. Returns the sum of the squares.
    pub fn turn(&mut self, aim: &Aim<'_, '_>, means: &[i64]) -> i64 {
        let courses = self.program.courses();
        let width = courses.len();
        let mut norm: i64 = 0;
        for (place, drift) in self.drift.iter_mut().enumerate() {
            let index = place.checked_rem(width).unwrap_or(0);
            let slot = place.checked_div(width).unwrap_or(0);
            let course = courses.get(index).copied().unwrap_or(0) as usize;
            let chosen = if has(&self.plan, index, slot) { ONE } else { 0 };
            let mean = means.get(aim.place(course, slot)).copied().unwrap_or(0);
            let more = chosen.wrapping_sub(mean);
            *drift = drifted(*drift, more);
            norm = norm.saturating_add(square(more));
        }
        self.habits.note(&self.plan, &self.lectures);
        norm
    }

    /// Goes a step in the direction.
    pub fn advance(&mut self, step: i64) {
        for (exact, drift) in self.exact.iter_mut().zip(&self.drift) {
            *exact = exact.saturating_add(product(step, *drift));
        }
    }
}
