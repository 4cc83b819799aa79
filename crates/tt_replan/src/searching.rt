//! The search for the cheapest week of a group.

use crate::board::Board;
use crate::folding::Folder;
use crate::letters::Alphabet;
use crate::placing::Plan;
use crate::present::present_cost;
use crate::spelling::Speller;
use std::alloc::{AllocError, Global};
use tt_occupancy::Occupied;
use tt_replan_tables::{Group, Sizes};

/// The search for the cheapest week of a group, and the plan that it found.
#[derive(Drop)]
pub struct Search {
    alphabet: Alphabet,
    speller: Speller,
    folder: Folder,
    pub plan: Plan,
}

impl Search {
    /// Makes room for a week of these sizes. Fails if memory runs out.
    pub fn new(alloc: Global, sizes: Sizes) -> Result<Search, AllocError> {
        Ok(Search {
            alphabet: Alphabet::EMPTY,
            plan: Plan::new(alloc, sizes.slots)?,
            folder: Folder::new(alloc, sizes.days)?,
            speller: Speller::new(alloc, sizes.periods)?,
        })
    }

    /// Finds the possible vectors of a day within the limit. Returns whether there are any, and not too many.
    fn find_day(&mut self, board: &Board, group: &Group, day: usize, limit: u32) -> bool {
        let first = day.wrapping_mul(board.week.periods);
        self.speller
            .find(board, group, &self.alphabet, first, limit)
            && self.folder.take(&mut self.speller, day)
    }

    /// Finds the possible vectors of each day within the limit, and returns a lower bound of the cost of all days.
    fn find_days(&mut self, board: &Board, group: &Group, limit: u32) -> Option<u32> {
        self.alphabet.find(&board.links, group);
        let mut least: u32 = 0;
        for day in 0..board.week.days {
            if !self.find_day(board, group, day, limit.saturating_sub(least)) {
                return None;
            }
            least = least.saturating_add(self.folder.least(day));
        }
        Some(least)
    }

    /// Writes the cheapest week to the plan, if it costs no more than the limit. Returns whether it does.
    fn write_plan(&mut self, board: &Board, group: &Group, limit: u32, least: u32) -> bool {
        let days = board.week.days;
        let Some(last) = self.folder.fold(group, days, limit, least) else {
            return false;
        };
        let mut state = last;
        for day in (0..days).rev() {
            let (spelled, before) = self.folder.trace(day, state);
            let first = day.wrapping_mul(board.week.periods);
            self.plan.write_day(first, board.week.periods, spelled);
            state = before;
        }
        true
    }

    /// Plans a group whose lectures are not on the board. Returns whether the tables were large enough.
    pub fn plan(&mut self, occupied: &Occupied<'_, '_>, board: &mut Board, group: &Group) -> bool {
        let limit = present_cost(board, group);
        let Some(least) = self.find_days(board, group, limit) else {
            return false;
        };
        if self.write_plan(board, group, limit, least) {
            self.plan.find_steps(occupied, board);
        }
        true
    }
}
