//! The steps to a plan.

use crate::board::Board;
use std::alloc::{AllocError, Global};
use tt_moves::Step;
use tt_occupancy::Occupied;
use tt_replan_tables::{Own, Seating, Week, entry_at, put, put_next};

/// The maximum number of steps that lead to a plan.
const MOST_STEPS: usize = 512;

/// A placeholder for no step.
const NO_STEP: Step = Step::Swap {
    first: 0,
    second: 0,
};

/// The members in each period of a plan, and the steps that lead there.
#[derive(Drop)]
pub struct Plan {
    /// The members in each period, as sets.
    members: Vec<u8>,
    steps: Vec<Step>,
    count: usize,
    /// The cost of the seats, and the sum of their prices.
    paid: u32,
    priced: u32,
}

impl Plan {
    /// Makes room for a plan of this many slots. Fails if memory runs out.
    pub fn new(alloc: Global, slots: usize) -> Result<Plan, AllocError> {
        Ok(Plan {
            members: vec![in alloc; 0u8; slots]?,
            steps: vec![in alloc; NO_STEP; MOST_STEPS]?,
            count: 0,
            paid: 0,
            priced: 0,
        })
    }

    /// Returns the steps.
    pub fn steps(&self) -> &[Step] {
        self.steps.get(..self.count).unwrap_or(&[])
    }

    /// Removes all steps.
    pub fn clear(&mut self) {
        self.count = 0;
        self.paid = 0;
        self.priced = 0;
    }

    /// Writes the members of a day, given as four bits for each period, the last period lowest.
    pub fn write_day(&mut self, first: usize, periods: usize, spelled: u64) {
        let mut rest = spelled;
        for period in (0..periods).rev() {
            let members = (rest & 15) as u8;
            put(&mut self.members, first.wrapping_add(period), members);
            rest >>= 4;
        }
    }

    fn members_in(&self, slot: usize) -> u8 {
        self.members.get(slot).copied().unwrap_or(0)
    }

    fn has(&self, slot: usize, member: u8) -> bool {
        self.members_in(slot) & member != 0
    }

    fn push(&mut self, step: Step) {
        self.count = put_next(&mut self.steps, self.count, step);
    }

    /// Moves an entry to a room of a period.
    fn push_move(&mut self, board: &mut Board, entry: u32, slot: usize, rank: u32) {
        board.week.seat(slot, rank, entry);
        let (day, period) = board.week.day_and_period(slot);
        self.push(Step::Move {
            entry,
            room: board.rooms.room(rank),
            day,
            period,
        });
    }

    /// Returns a period of the plan in which a member is not taught now. Each such period is returned once.
    fn take_slot(&mut self, week: &Week, member: u8) -> Option<usize> {
        for slot in 0..week.len() {
            if self.has(slot, member) && week.slot(slot).present & member == 0 {
                let others = self.members_in(slot) & !member;
                put(&mut self.members, slot, others);
                return Some(slot);
            }
        }
        None
    }

    /// Gives a lecture a seat in a period.
    fn place(&mut self, occupied: &Occupied<'_, '_>, board: &mut Board, own: Own, slot: usize) {
        let seating = Seating {
            occupied,
            rooms: &board.rooms,
            week: &board.week,
        };
        if let Some(entry) = entry_at(occupied, own.entry)
            && let Some(seat) = seating.cheapest(entry.course, slot)
        {
            self.paid = self.paid.saturating_add(seat.cost);
            if let Some(evicted) = seat.evicted {
                self.push_move(board, evicted.entry, slot, evicted.rank);
            }
            self.push_move(board, own.entry, slot, seat.rank);
        }
    }

    /// Leaves the lectures that remain in their periods in their rooms.
    fn keep_staying(&self, week: &mut Week) {
        for number in 0..week.own_count() {
            let own = week.own(number);
            if self.has(own.slot, own.member) {
                week.seat(own.slot, own.rank, own.entry);
            }
        }
    }

    /// Finds the steps to the plan. No steps are made if the seats cost more than their prices.
    pub fn find_steps(&mut self, occupied: &Occupied<'_, '_>, board: &mut Board) {
        self.clear();
        self.keep_staying(&mut board.week);
        for number in 0..board.week.own_count() {
            let own = board.week.own(number);
            if !self.has(own.slot, own.member)
                && let Some(slot) = self.take_slot(&board.week, own.member)
            {
                let member = own.member.trailing_zeros() as usize;
                let price = board.prices.get(slot, member).plain;
                self.priced = self.priced.saturating_add(price);
                self.place(occupied, board, own, slot);
            }
        }
        if self.paid > self.priced || self.count == MOST_STEPS {
            self.clear();
        }
    }
}
