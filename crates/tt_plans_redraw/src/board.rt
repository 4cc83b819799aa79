//! The week without the lectures of a group.

use crate::group::{Group, MOST_MEMBERS, Member};
use std::alloc::{AllocError, Global};
use tt_plans::{CLASH_COST, Facts, ISOLATION_COST, Plan};
use tt_plans_tables::put;

/// The maximum number of curricula of a group's courses.
const MOST_CURRICULA: usize = 64;

/// The number of choices for a slot: none of the members, which is choice 0, or one of them.
pub const CHOICES: usize = MOST_MEMBERS + 1;

/// A choice for a slot.
#[derive(Clone, Copy)]
pub struct Choice {
    pub is_open: bool,
    /// The group's curricula that are taught in the slot, as a set.
    pub taught: u64,
    /// What the room of the member costs.
    pub price: i64,
    /// One lecture of the member, in a word with a byte for each.
    pub unit: u32,
}

impl Choice {
    const CLOSED: Choice = Choice {
        is_open: false,
        taught: 0,
        price: 0,
        unit: 0,
    };
}

/// A slot without the lectures of the group.
#[derive(Clone, Copy)]
pub struct Square {
    /// The group's curricula that other courses teach here, as a set.
    fixed: u64,
    choices: [Choice; CHOICES],
    /// The choice of the present plan.
    pub now: usize,
}

impl Square {
    /// A slot in which nothing is taught, and none of the members may be.
    const NONE: Square = Square {
        fixed: 0,
        choices: [
            Choice {
                is_open: true,
                ..Choice::CLOSED
            },
            Choice::CLOSED,
            Choice::CLOSED,
            Choice::CLOSED,
        ],
        now: 0,
    };

    /// Returns a choice.
    pub fn choice(&self, number: usize) -> Choice {
        self.choices.get(number).copied().unwrap_or(Choice::CLOSED)
    }

    /// Returns all choices.
    pub fn choices(&self) -> &[Choice] {
        &self.choices
    }

    /// Sets what is taught without a member.
    fn set_fixed(&mut self, fixed: u64) {
        self.fixed = fixed;
        if let Some(place) = self.choices.get_mut(0) {
            place.taught = fixed;
        }
    }

    /// Opens a choice that teaches these curricula too.
    fn open(&mut self, number: usize, curricula: u64, price: i64, unit: u32) {
        let taught = self.fixed | curricula;
        if let Some(place) = self.choices.get_mut(number) {
            *place = Choice {
                is_open: true,
                taught,
                price,
                unit,
            };
        }
    }
}

/// Returns the cost of curricula that are isolated.
pub fn isolation(curricula: u64) -> i64 {
    if curricula == 0 {
        return 0;
    }
    ISOLATION_COST.wrapping_mul(i64::from(curricula.count_ones()))
}

/// The week without the lectures of a group, and the curricula of its members.
#[derive(Drop)]
pub struct Board {
    pub periods: usize,
    squares: Vec<Square>,
    /// The slot before each day.
    none: Square,
    /// The curricula of the group; the number of each is its bit.
    curricula: Vec<u32>,
    count: usize,
    /// The bit of each curriculum, as a set; 0 of those that aren't the group's.
    bits: Vec<u64>,
    /// The curricula of each member, as sets.
    sets: [u64; MOST_MEMBERS],
}

/// Checks whether a course conflicts with another in a slot, without the lecture of the group that is there now.
fn has_rival(facts: &Facts, plan: &Plan<'_, '_>, course: usize, slot: usize, now: Member) -> bool {
    let conflicts = facts.conflicts.row(course);
    for (word, (conflicts, taught)) in conflicts.iter().zip(plan.taught_in(slot)).enumerate() {
        let mut rivals = *conflicts & *taught;
        if now.course / 64 == word {
            rivals &= !1u64.wrapping_shl((now.course % 64) as u32);
        }
        if rivals != 0 {
            return true;
        }
    }
    false
}

/// Checks whether the levels of a slot allow another course, without the lecture of the group that is there now.
fn has_level(facts: &Facts, plan: &Plan<'_, '_>, course: usize, slot: usize, now: Member) -> bool {
    let first = facts.course(course).level;
    let lifted = if now.course < facts.sizes.courses {
        facts.course(now.course).level
    } else {
        usize::MAX
    };
    let levels = plan.levels_in(slot);
    for level in first..facts.sizes.rooms {
        if levels.left(level) < i32::from(level < lifted) {
            return false;
        }
    }
    true
}

impl Board {
    /// Makes room for the week of an instance. Fails if memory runs out.
    pub fn new(alloc: Global, facts: &Facts) -> Result<Board, AllocError> {
        let sizes = facts.sizes;
        Ok(Board {
            periods: sizes.periods,
            squares: vec![in alloc; Square::NONE; sizes.slots]?,
            none: Square::NONE,
            curricula: vec![in alloc; 0u32; MOST_CURRICULA]?,
            count: 0,
            bits: vec![in alloc; 0u64; sizes.curricula]?,
            sets: [0; MOST_MEMBERS],
        })
    }

    /// Returns a slot; one without lectures if there is no such slot.
    pub fn square(&self, slot: usize) -> &Square {
        match self.squares.get(slot) {
            Some(square) => square,
            None => &self.none,
        }
    }

    /// Returns the curricula of the group.
    pub fn curricula(&self) -> &[u32] {
        self.curricula.get(..self.count).unwrap_or(&[])
    }

    /// Returns the curricula of a choice, as a set.
    fn set(&self, choice: usize) -> u64 {
        let number = choice.wrapping_sub(1);
        self.sets.get(number).copied().unwrap_or(0)
    }

    /// Removes the bits of all curricula.
    fn clear(&mut self) {
        for number in 0..self.count {
            let curriculum = self.curricula.get(number).copied().unwrap_or(0);
            put(&mut self.bits, curriculum as usize, 0);
        }
        self.count = 0;
        self.sets = [0; MOST_MEMBERS];
        self.squares.fill(Square::NONE);
    }

    /// Returns the bit of a curriculum, which gets one if it has none; 0 if there are too many.
    fn bit_of(&mut self, curriculum: u32) -> u64 {
        let known = self.bits.get(curriculum as usize).copied().unwrap_or(0);
        if known != 0 || self.count >= MOST_CURRICULA {
            return known;
        }
        let bit = 1u64.wrapping_shl((self.count % 64) as u32);
        put(&mut self.bits, curriculum as usize, bit);
        put(&mut self.curricula, self.count, curriculum);
        self.count = self.count.saturating_add(1);
        bit
    }

    /// Gives the curricula of all members their bits. Returns whether there are few enough.
    fn find_sets(&mut self, facts: &Facts, group: &Group) -> bool {
        for (number, member) in group.members().iter().enumerate() {
            let mut set = 0;
            for curriculum in facts.curricula.row(member.course) {
                let bit = self.bit_of(*curriculum);
                if bit == 0 {
                    return false;
                }
                set |= bit;
            }
            if let Some(place) = self.sets.get_mut(number) {
                *place = set;
            }
        }
        true
    }

    /// Marks the slots of the group's lectures.
    fn mark_lectures(&mut self, facts: &Facts, plan: &Plan<'_, '_>, group: &Group) {
        for (number, member) in group.members().iter().enumerate() {
            for lecture in facts.lectures.row(member.course) {
                if let Some(square) = self.squares.get_mut(plan.slot_of(*lecture)) {
                    square.now = number.saturating_add(1);
                }
            }
        }
    }

    /// Marks the slots in which the curricula are taught.
    fn mark_curricula(&mut self, facts: &Facts, plan: &Plan<'_, '_>) {
        for number in 0..self.count {
            let curriculum = self.curricula.get(number).copied().unwrap_or(0) as usize;
            let bit = 1u64.wrapping_shl((number % 64) as u32);
            for (day, word) in plan.days.row(curriculum).iter().enumerate() {
                let first = day.wrapping_mul(facts.sizes.periods);
                let mut periods = word.wrapping_shr(2);
                for _ in 0..periods.count_ones() {
                    let slot = first.wrapping_add(periods.trailing_zeros() as usize);
                    periods &= periods.wrapping_sub(1);
                    if let Some(square) = self.squares.get_mut(slot) {
                        square.fixed |= bit;
                    }
                }
            }
        }
    }

    /// Opens the choices of each slot.
    fn open_squares(&mut self, facts: &Facts, plan: &Plan<'_, '_>, group: &Group) {
        for slot in 0..facts.sizes.slots {
            let mut square = self.squares.get(slot).copied().unwrap_or(Square::NONE);
            let fixed = square.fixed & !self.set(square.now);
            square.set_fixed(fixed);
            let now = group.member(square.now.wrapping_sub(1));
            let home_now = plan.home_of(now.course);
            let mut choice: usize = 1;
            for member in group.members() {
                let course = member.course;
                let is_open = choice == square.now
                    || (!facts.is_barred(course, slot)
                        && !has_rival(facts, plan, course, slot, now)
                        && has_level(facts, plan, course, slot, now));
                if is_open {
                    let home = plan.home_of(course);
                    let own = i32::from(square.now > 0 && home_now == home);
                    let is_taken = plan.at_home.get(slot, home) > own;
                    let price = if is_taken { CLASH_COST } else { 0 };
                    square.open(choice, self.set(choice), price, member.unit());
                }
                choice = choice.saturating_add(1);
            }
            put(&mut self.squares, slot, square);
        }
    }

    /// Reads a plan without the lectures of a group. Returns whether its curricula are few enough.
    pub fn read(&mut self, facts: &Facts, plan: &Plan<'_, '_>, group: &Group) -> bool {
        self.clear();
        if !self.find_sets(facts, group) {
            return false;
        }
        self.mark_lectures(facts, plan, group);
        self.mark_curricula(facts, plan);
        self.open_squares(facts, plan, group);
        true
    }

    /// Returns the slots from a slot on, at most a day.
    fn day(&self, first: usize) -> &[Square] {
        let end = first.saturating_add(self.periods);
        self.squares.get(first..end).unwrap_or(&[])
    }

    /// Returns the number of periods of a day in which each member may be taught, in a word with a byte for each member.
    pub fn places_on(&self, group: &Group, first: usize) -> u32 {
        let mut places: u32 = 0;
        for square in self.day(first) {
            for (member, choice) in group.members().iter().zip(square.choices().iter().skip(1)) {
                if choice.is_open {
                    places = places.wrapping_add(member.unit());
                }
            }
        }
        places
    }

    /// Returns the cost of the isolated periods and of the rooms of the present lectures of a day.
    fn present_cost_on(&self, first: usize) -> i64 {
        let (mut last, mut before): (u64, u64) = (0, 0);
        let mut cost: i64 = 0;
        for square in self.day(first) {
            let choice = square.choice(square.now);
            cost = cost
                .wrapping_add(isolation(last & !before & !choice.taught))
                .wrapping_add(choice.price);
            before = last;
            last = choice.taught;
        }
        cost.wrapping_add(isolation(last & !before))
    }

    /// Returns the cost of the present plan of the group.
    pub fn present_cost(&self, facts: &Facts, plan: &Plan<'_, '_>, group: &Group) -> i64 {
        let mut cost: i64 = 0;
        for day in 0..facts.sizes.days {
            let first = day.wrapping_mul(self.periods);
            cost = cost.wrapping_add(self.present_cost_on(first));
        }
        for member in group.members() {
            let missing = plan.days_missing(facts, member.course, 0);
            cost = cost.wrapping_add(missing.wrapping_mul(plan.day_cost));
        }
        cost
    }
}
