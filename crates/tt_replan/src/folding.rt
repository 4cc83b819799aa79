//! The cheapest week of a group, from the lectures that each day can have.

use crate::spelling::{DEAR, Speller, Vector, left_after};
use std::alloc::{AllocError, Global};
use tt_instance::MISSING_DAY_COST;
use tt_replan_tables::{Group, MOST_STATES, POINT, put, put_next};

/// The maximum number of vectors of all days together.
const MOST_VECTORS: usize = 16_384;

/// The bits of bytes that are more than 1.
const CROWDED: u32 = 0x7e7e_7e7e;

/// The cost of a missing day.
const MISSING_DAY: u32 = MISSING_DAY_COST * POINT;

/// The cheapest way to a state.
#[derive(Clone, Copy)]
struct State {
    cost: u32,
    /// The lectures that are left, a byte each.
    left: u32,
    /// The state of the day before.
    from: u32,
    /// The vector of the day.
    by: usize,
}

impl State {
    const NONE: State = State {
        cost: DEAR,
        left: 0,
        from: 0,
        by: 0,
    };
}

/// The amounts that crowded lectures add to a state and to its cost.
#[derive(Clone, Copy)]
struct Crowding {
    index: u32,
    cost: u32,
}

/// Returns the amounts that the crowded lectures of a day with these lectures add to a state and to its cost.
fn crowding_on(group: &Group, state: u32, counts: u32) -> Crowding {
    let mut crowding = Crowding { index: 0, cost: 0 };
    if counts & CROWDED == 0 {
        return crowding;
    }
    let mut bytes = counts;
    for member in group.members() {
        let crowded = (bytes & 0x7f).saturating_sub(1);
        bytes >>= 8;
        if crowded > 0 {
            let digits = state.checked_div(member.crowd_stride).unwrap_or(0);
            let digit = digits
                .checked_rem(member.slack.saturating_add(1))
                .unwrap_or(0);
            let free = crowded.min(member.slack.saturating_sub(digit));
            crowding.index = crowding
                .index
                .wrapping_add(free.wrapping_mul(member.crowd_stride));
            let paid = crowded.saturating_sub(free).wrapping_mul(MISSING_DAY);
            crowding.cost = crowding.cost.wrapping_add(paid);
        }
    }
    crowding
}

/// Returns the cost of crowded lectures in a week in which a course is taught on this many days.
pub fn crowding_cost(lectures: u32, slack: u32, days: u32) -> u32 {
    lectures
        .saturating_sub(days)
        .saturating_sub(slack)
        .wrapping_mul(MISSING_DAY)
}

/// The vectors of each day, and the states after each day.
#[derive(Drop)]
pub struct Folder {
    /// The vectors of each day, cheapest first.
    vectors: Vec<Vector>,
    /// The index at which the vectors of each day begin, and the index at which those of the last day end.
    begins: Vec<usize>,
    states: Vec<State>,
}

/// Returns the index at which the states after this many days begin.
fn first_state(days: usize) -> usize {
    days.wrapping_mul(MOST_STATES as usize)
}

/// Sorts the vectors between two indices, the cheapest first.
fn sort_between(vectors: &mut Vec<Vector>, begin: usize, end: usize) {
    if begin <= end && end <= vectors.len() {
        let part = &mut vectors[begin..end];
        part.sort_unstable_by_key(|vector| vector.cost);
    }
}

impl Folder {
    /// Makes room for the vectors of a week with this many days. Fails if memory runs out.
    pub fn new(alloc: Global, days: usize) -> Result<Folder, AllocError> {
        let ends = days.saturating_add(1);
        Ok(Folder {
            vectors: vec![in alloc; Vector::NONE; MOST_VECTORS]?,
            begins: vec![in alloc; 0usize; ends]?,
            states: vec![in alloc; State::NONE; ends.saturating_mul(MOST_STATES as usize)]?,
        })
    }

    fn begin(&self, day: usize) -> usize {
        self.begins.get(day).copied().unwrap_or(0)
    }

    fn vector(&self, number: usize) -> Vector {
        self.vectors.get(number).copied().unwrap_or(Vector::NONE)
    }

    /// Returns the cost of the cheapest vector on a day.
    pub fn least(&self, day: usize) -> u32 {
        self.vector(self.begin(day)).cost
    }

    /// Takes over the vectors that a speller has found for a day. Returns whether there are any, and not too many.
    pub fn take(&mut self, speller: &mut Speller, day: usize) -> bool {
        let begin = self.begin(day);
        let mut end = begin;
        for number in 0..MOST_STATES as usize {
            let Some(vector) = speller.take(number) else {
                break;
            };
            end = put_next(&mut self.vectors, end, vector);
        }
        sort_between(&mut self.vectors, begin, end);
        put(&mut self.begins, day.saturating_add(1), end);
        begin < end && end < MOST_VECTORS
    }

    fn state(&self, days: usize, number: u32) -> State {
        let index = first_state(days).wrapping_add(number as usize);
        self.states.get(index).copied().unwrap_or(State::NONE)
    }

    fn reach(&mut self, days: usize, number: u32, state: State) {
        if state.cost < self.state(days, number).cost {
            let index = first_state(days).wrapping_add(number as usize);
            put(&mut self.states, index, state);
        }
    }

    /// Reaches states from a state by each vector of a day, within the limit.
    fn extend(&mut self, group: &Group, day: usize, number: u32, limit: u32) {
        let here = self.state(day, number);
        let next = day.saturating_add(1);
        for by in self.begin(day)..self.begin(next) {
            let vector = self.vector(by);
            let cost = here.cost.wrapping_add(vector.cost);
            if cost > limit {
                return;
            }
            let Some(left) = left_after(here.left, vector.counts) else {
                continue;
            };
            let crowding = crowding_on(group, number, vector.counts);
            let index = number
                .wrapping_add(vector.index)
                .wrapping_add(crowding.index);
            let state = State {
                cost: cost.wrapping_add(crowding.cost),
                left,
                from: number,
                by,
            };
            if state.cost <= limit {
                self.reach(next, index, state);
            }
        }
    }

    /// Resets the states to the beginning of the week.
    fn clear(&mut self, group: &Group, days: usize) {
        for day in 0..days.saturating_add(1) {
            for number in 0..group.states {
                let index = first_state(day).wrapping_add(number as usize);
                put(&mut self.states, index, State::NONE);
            }
        }
        let start = State {
            cost: 0,
            left: group.all(),
            ..State::NONE
        };
        self.reach(0, 0, start);
    }

    /// Returns the cheapest state after all days with no lecture left, if there is one.
    fn cheapest(&self, group: &Group, days: usize) -> Option<u32> {
        let mut best = None;
        let mut least = DEAR;
        for number in 0..group.states {
            let state = self.state(days, number);
            if state.left == 0 && state.cost < least {
                least = state.cost;
                best = Some(number);
            }
        }
        best
    }

    /// Finds the cheapest week that costs no more than the limit, given a lower bound of the cost of all days.
    pub fn fold(&mut self, group: &Group, days: usize, limit: u32, least: u32) -> Option<u32> {
        self.clear(group, days);
        let mut rest = least;
        for day in 0..days {
            rest = rest.saturating_sub(self.least(day));
            let limit = limit.saturating_sub(rest);
            for number in 0..group.states {
                self.extend(group, day, number, limit);
            }
        }
        self.cheapest(group, days)
    }

    /// Returns the sets of members on a day of the path to a state after it, and the state before it.
    pub fn trace(&self, day: usize, number: u32) -> (u64, u32) {
        let state = self.state(day.saturating_add(1), number);
        (self.vector(state.by).spelled, state.from)
    }
}
