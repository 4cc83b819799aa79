//! The fold of the days into a week.

use crate::allowance::Allowance;
use crate::day::{NONE, Table, Vector};
use crate::days::Days;
use crate::layout::Layout;
use std::alloc::{AllocError, Global};
use tt_instance::MISSING_DAY_COST;
use tt_watch::Watch;

/// The maximum number of digits of further lectures.
const DIGITS: usize = 16;

/// The width of a fold: all states of a day and all moves from each, or a maximum number of them.
#[derive(Clone, Copy)]
pub struct Width {
    pub states: usize,
    pub moves: usize,
}

impl Width {
    /// The width without a maximum.
    pub const FULL: Width = Width {
        states: usize::MAX,
        moves: usize::MAX,
    };
}

/// A state after the first days: the place of their lectures and further lectures, the number of lectures left, and these packed.
#[derive(Clone, Copy)]
struct State {
    place: u32,
    lectures: u32,
    left: u64,
}

/// The states that the first days can reach, and the cost paid so far, by place.
#[derive(Drop)]
struct Front {
    states: Vec<State>,
    paid: Vec<u8>,
}

impl Front {
    /// Returns a front without states.
    fn empty(alloc: Global, layout: &Layout) -> Result<Front, AllocError> {
        Ok(Front {
            states: Vec::new(alloc),
            paid: vec![in alloc; NONE; layout.states as usize]?,
        })
    }

    /// Returns the cost paid so far in a state.
    fn paid_at(&self, state: &State) -> u32 {
        self.paid
            .get(state.place as usize)
            .map_or(u32::from(NONE), |paid| u32::from(*paid))
    }

    /// Reaches a state at a cost.
    fn reach(&mut self, state: State, paid: u32) -> Result<(), AllocError> {
        let Some(entry) = self.paid.get_mut(state.place as usize) else {
            return Ok(());
        };
        if paid < u32::from(*entry) {
            let is_new = *entry == NONE;
            *entry = (paid % 256) as u8;
            if is_new {
                self.states.push(state)?;
            }
        }
        Ok(())
    }

    /// Leaves a state.
    fn leave(&mut self, state: &State) {
        if let Some(entry) = self.paid.get_mut(state.place as usize) {
            *entry = NONE;
        }
    }

    /// Leaves all states.
    fn clear(&mut self) {
        for state in &self.states {
            if let Some(entry) = self.paid.get_mut(state.place as usize) {
                *entry = NONE;
            }
        }
        self.states.clear();
    }

    /// Limits the number of states to `width`: half of them are the cheapest (of two that cost the same, the one with fewer lectures left), the
    /// others are spread over the rest.
    fn narrow(&mut self, width: usize) {
        let count = self.states.len();
        if count <= width {
            return;
        }
        let paid = &self.paid;
        self.states.sort_unstable_by_key(|state| {
            let cost = paid.get(state.place as usize).map_or(NONE, |paid| *paid);
            (cost, state.lectures, scattered(state.place))
        });
        let half = width / 2;
        let others = (count - half) as u64;
        for k in 0..half {
            let from = half as u64 + (k as u64).wrapping_mul(others) / (half as u64).max(1);
            let to = half + k;
            if (from as usize) < count && to < count {
                self.states.swap(to, from as usize);
            }
        }
        for k in 2 * half..count {
            if let Some(state) = self.states.get(k).copied() {
                self.leave(&state);
            }
        }
        self.states.truncate(2 * half);
    }
}

/// Returns a number that orders consecutive places differently from the places themselves.
fn scattered(place: u32) -> u32 {
    place.wrapping_mul(0x9E37_79B9)
}

/// Returns the further lectures of all courses at a place.
fn digits_at(layout: &Layout, place: u32) -> [u32; DIGITS] {
    let mut digits = [0; DIGITS];
    for (digit, slack) in digits.iter_mut().zip(&layout.slacks) {
        *digit = slack.further_at(place);
    }
    digits
}

/// Returns the amount that a day's further lectures add to a place, and their cost.
fn further(layout: &Layout, digits: &[u32; DIGITS], packed: u64) -> (u32, u32) {
    let mut place = 0u32;
    let mut cost = 0u32;
    for (digit, slack) in digits.iter().zip(&layout.slacks) {
        let more = slack.further_of(packed);
        if more > 0 {
            let free = more.min(slack.further.saturating_sub(*digit));
            place = place.wrapping_add(free.wrapping_mul(slack.weight));
            cost = cost.wrapping_add(MISSING_DAY_COST.wrapping_mul(more.saturating_sub(free)));
        }
    }
    (place, cost)
}

/// The fold of the days of a group, for costs below a limit.
#[derive(Drop)]
pub struct Fold<'s> {
    pub layout: &'s Layout,
    pub days: &'s Days,
    pub limit: u32,
    pub width: Width,
}

impl Fold<'_> {
    /// Returns the table of a day.
    fn table(&self, day: usize) -> Option<&Table> {
        self.days.tables.get(*self.days.of_day.get(day)?)
    }

    /// Reaches the states that a day leads to from one state. Returns the number of the day's vectors that were tried.
    fn extend(
        &self,
        vectors: &[Vector],
        state: &State,
        paid: u32,
        next: &mut Front,
    ) -> Result<usize, AllocError> {
        let guard = self.layout.guard;
        let room = state.left | guard;
        let digits = digits_at(self.layout, state.place);
        let mut moves = 0;
        for (tried, vector) in vectors.iter().enumerate() {
            let cost = paid.wrapping_add(vector.cost);
            if self.limit <= cost || moves == self.width.moves {
                return Ok(tried);
            }
            let left = room.wrapping_sub(vector.packed);
            if left & guard != guard {
                continue;
            }
            moves = moves.wrapping_add(1);
            let (more, pay) = further(self.layout, &digits, vector.packed);
            let total = cost.wrapping_add(pay);
            if total < self.limit {
                let reached = State {
                    place: state.place.wrapping_add(vector.place).wrapping_add(more),
                    lectures: state.lectures.wrapping_sub(vector.lectures),
                    left: left & !guard,
                };
                next.reach(reached, total)?;
            }
        }
        Ok(vectors.len())
    }

    /// Reaches the states that a day leads to. Returns `false` if the work is used up.
    fn pass<W: Watch>(
        &self,
        vectors: &[Vector],
        front: &Front,
        next: &mut Front,
        work: &mut Allowance<'_, W>,
    ) -> Result<bool, AllocError> {
        for state in &front.states {
            let tried = self.extend(vectors, state, front.paid_at(state), next)?;
            if !work.spend(tried as u64) {
                return Ok(false);
            }
        }
        Ok(true)
    }

    /// Returns the cost of the last day from a state, if all lectures that are left are taught on it; the limit if that is impossible.
    fn rest(&self, table: &Table, state: &State) -> u32 {
        let used = state.place.checked_rem(self.layout.places).unwrap_or(0);
        let place = self.layout.places.wrapping_sub(1).wrapping_sub(used);
        let cost = match table.costs.get(place as usize) {
            Some(cost) if *cost != NONE => u32::from(*cost),
            _ => return self.limit,
        };
        let digits = digits_at(self.layout, state.place);
        let (_, pay) = further(self.layout, &digits, state.left);
        cost.wrapping_add(pay)
    }

    /// Returns the lowest cost of a week whose last day is still open, if it is below the limit; else the limit.
    fn least(&self, table: &Table, front: &Front) -> u32 {
        let mut least = self.limit;
        for state in &front.states {
            least = least.min(front.paid_at(state).wrapping_add(self.rest(table, state)));
        }
        least
    }

    /// Returns the lowest cost of a week beyond the base cost, among the weeks that the fold visits, if it is below the limit; else the limit.
    /// Returns `None` if the work is used up.
    pub fn run<W: Watch>(
        &self,
        alloc: Global,
        work: &mut Allowance<'_, W>,
    ) -> Result<Option<u32>, AllocError> {
        let mut front = Front::empty(alloc, self.layout)?;
        let mut next = Front::empty(alloc, self.layout)?;
        let start = State {
            place: 0,
            lectures: self.layout.lectures,
            left: self.layout.full,
        };
        front.reach(start, 0)?;
        let last = self.days.of_day.len().saturating_sub(1);
        for day in 0..last {
            let Some(table) = self.table(day) else {
                return Ok(None);
            };
            if !self.pass(&table.vectors, &front, &mut next, work)? {
                return Ok(None);
            }
            next.narrow(self.width.states);
            front.clear();
            (front, next) = (next, front);
        }
        let Some(table) = self.table(last) else {
            return Ok(None);
        };
        Ok(Some(self.least(table, &front)))
    }
}
