//! What the rest of each day costs at least.

use crate::board::{Board, CHOICES, Square, isolation};
use std::alloc::{AllocError, Global};
use tt_plans::Facts;
use tt_plans_tables::put;

/// The number of pairs of choices.
const PAIRS: usize = CHOICES * CHOICES;

/// The cost of an impossible plan.
const FAR: i64 = i64::MAX / 4;

/// For each period of the week, and for the end of each day: what the rest of the day costs at least, by the choices of the two periods
/// before. The missing days of a course aren't counted.
#[derive(Drop)]
pub struct Ends {
    periods: usize,
    costs: Vec<i64>,
}

/// Two slots that follow each other.
#[derive(Clone, Copy)]
struct Pair<'b> {
    before: &'b Square,
    last: &'b Square,
}

/// Returns the slot that is this many periods before a period of the day that begins with a slot; none of the week's if the day has none.
fn slot_before(first: usize, period: usize, by: usize) -> usize {
    match period.checked_sub(by) {
        Some(earlier) => first.wrapping_add(earlier),
        None => usize::MAX,
    }
}

impl<'b> Pair<'b> {
    /// Returns the slots before a period of the day that begins with a slot.
    fn before(board: &'b Board, first: usize, period: usize) -> Pair<'b> {
        Pair {
            before: board.square(slot_before(first, period, 2)),
            last: board.square(slot_before(first, period, 1)),
        }
    }
}

impl Ends {
    /// Makes room for the days of an instance. Fails if memory runs out.
    pub fn new(alloc: Global, facts: &Facts) -> Result<Ends, AllocError> {
        let periods = facts.sizes.periods;
        let ends = periods.saturating_add(1).saturating_mul(facts.sizes.days);
        Ok(Ends {
            periods,
            costs: vec![in alloc; FAR; ends.saturating_mul(PAIRS)]?,
        })
    }

    /// Returns the index of the first pair of choices before a period.
    fn begin(&self, day: usize, period: usize) -> usize {
        let periods = self.periods.wrapping_add(1);
        day.wrapping_mul(periods)
            .wrapping_add(period)
            .wrapping_mul(PAIRS)
    }

    /// Returns the least costs of a day from a period on, after a choice and each that follows it.
    pub fn row(&self, day: usize, period: usize, before: usize) -> &[i64] {
        let begin = self
            .begin(day, period)
            .wrapping_add(before.wrapping_mul(CHOICES));
        self.costs
            .get(begin..begin.wrapping_add(CHOICES))
            .unwrap_or(&[])
    }

    /// Returns the least cost of a day.
    pub fn least(&self, day: usize) -> i64 {
        self.row(day, 0, 0).first().copied().unwrap_or(FAR)
    }

    /// Finds the least costs of the end of a day, after its two last periods.
    fn find_end(&mut self, day: usize, pair: Pair<'_>) {
        let mut index = self.begin(day, self.periods);
        for before in pair.before.choices() {
            for last in pair.last.choices() {
                let cost = if before.is_open && last.is_open {
                    isolation(last.taught & !before.taught)
                } else {
                    FAR
                };
                put(&mut self.costs, index, cost);
                index = index.wrapping_add(1);
            }
        }
    }

    /// Returns the least cost of a day from a period on, after a choice and curricula that began with it.
    fn least_from(
        &self,
        day: usize,
        period: usize,
        choice: usize,
        begun: u64,
        here: &Square,
    ) -> i64 {
        let mut least = FAR;
        let ends = self.row(day, period.wrapping_add(1), choice);
        for (choice, end) in here.choices().iter().zip(ends) {
            if choice.is_open {
                let cost = isolation(begun & !choice.taught)
                    .wrapping_add(choice.price)
                    .wrapping_add(*end);
                least = least.min(cost);
            }
        }
        least
    }

    /// Finds the least costs of a day from a period on, after the two periods before it; those of the next period are found.
    fn find_period(&mut self, day: usize, period: usize, pair: Pair<'_>, here: &Square) {
        let mut index = self.begin(day, period);
        for before in pair.before.choices() {
            for (choice, last) in pair.last.choices().iter().enumerate() {
                let least = if before.is_open && last.is_open {
                    let begun = last.taught & !before.taught;
                    self.least_from(day, period, choice, begun, here)
                } else {
                    FAR
                };
                put(&mut self.costs, index, least);
                index = index.wrapping_add(1);
            }
        }
    }

    /// Finds the least costs of a day.
    pub fn find(&mut self, board: &Board, day: usize) {
        let first = day.wrapping_mul(self.periods);
        self.find_end(day, Pair::before(board, first, self.periods));
        for period in (0..self.periods).rev() {
            let here = board.square(first.wrapping_add(period));
            let pair = Pair::before(board, first, period);
            self.find_period(day, period, pair, here);
        }
    }
}
