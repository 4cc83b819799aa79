//! The choice of a course and a period by the gains of both children. Nothing is proved about the choice.

ghost use Rattle.std.specs.Prelude.{◌<◌, length};

use crate::course_set::{CourseSet, bit_in, first_course, rivals_in, words_for};
use crate::neighbours::Neighbours;
use crate::prospects::{Prospects, bit_of};
use std::alloc::{AllocError, Global};
use tt_instance::{ISOLATED_COST, Instance, Slot};

/// The number of parts of a cost point in which a gain is counted: a sixteenth of a bit of the ways to choose counts 16 parts.
const POINT: u64 = 12_288;

/// The gain of a child that a leaf closes, in parts.
const CLOSED: u64 = 64 * POINT;

/// The value of a pinned period that may still become isolated, by the number of live members next to it, in
/// parts: a hundredth of a point, and 0.8 as much for each of them.
const NEARLY_ALONE: [u64; 9] = [123, 98, 79, 63, 50, 40, 32, 26, 21];

/// The gain of a child compared with its parent.
#[derive(Clone, Copy)]
struct ChildEstimate {
    /// The increase of the value of its claims, in cost points.
    cost: u64,
    /// The value of what makes further gains below likely, in parts.
    expected: u64,
}

impl ChildEstimate {
    const NONE: ChildEstimate = ChildEstimate {
        cost: 0,
        expected: 0,
    };

    fn add(&mut self, more: ChildEstimate) {
        self.cost = self.cost.saturating_add(more.cost);
        self.expected = self.expected.saturating_add(more.expected);
    }

    /// Returns the gain in parts, and at least 1.
    fn parts(self) -> u64 {
        self.cost
            .saturating_mul(POINT)
            .saturating_add(self.expected)
            .max(1)
    }
}

/// The gains of the two children of a split.
#[derive(Clone, Copy)]
struct Gains {
    yes: ChildEstimate,
    no: ChildEstimate,
}

/// A course and a period to split by.
#[derive(Clone, Copy)]
pub struct Candidate {
    pub course: u32,
    pub day: u32,
    pub period: u32,
    score: u64,
}

/// The tables on which a choice is based.
#[derive(Clone, Copy)]
struct BranchingTables<'s, 'i> {
    instance: &'s Instance<'i>,
    prospects: &'s Prospects,
    neighbours: &'s Neighbours,
}

fn weight(beside: u32) -> u64 {
    NEARLY_ALONE.get(beside as usize).copied().unwrap_or(0)
}

/// Returns the value of a fall of the ways to choose, in parts.
fn worth_of_fall(fall: u32) -> u64 {
    u64::from(fall).saturating_mul(16)
}

/// Returns the gain if a course loses an open period.
fn loss(prospects: &Prospects, course: u32, slot: Slot) -> ChildEstimate {
    let Some(prospect) = prospects.of(course) else {
        return ChildEstimate::NONE;
    };
    let leeway = prospect.leeway;
    let is_last = prospects.on(course, slot.day).live() == bit_of(slot.period);
    ChildEstimate {
        cost: if is_last {
            prospect.days_less.saturating_sub(prospect.days)
        } else {
            0
        },
        expected: if leeway.open <= leeway.left {
            CLOSED
        } else {
            worth_of_fall(prospect.fall_barred)
        },
    }
}

/// Returns the gain for the course itself if it is in an open period.
fn hold(prospects: &Prospects, course: u32) -> ChildEstimate {
    let Some(prospect) = prospects.of(course) else {
        return ChildEstimate::NONE;
    };
    ChildEstimate {
        cost: 0,
        expected: if prospect.leeway.left == 0 {
            CLOSED
        } else {
            worth_of_fall(prospect.fall_pinned)
        },
    }
}

/// Returns the gain for a pinned period of a curriculum if `lost` of the members next to it lose a period.
fn isolation(beside: u32, lost: u32) -> ChildEstimate {
    let left = beside.saturating_sub(lost);
    if left == beside {
        return ChildEstimate::NONE;
    }
    if left == 0 {
        return ChildEstimate {
            cost: u64::from(ISOLATED_COST),
            expected: 0,
        };
    }
    ChildEstimate {
        cost: 0,
        expected: weight(left).saturating_sub(weight(beside)),
    }
}

/// Returns the gain for the pinned periods next to a period if `lost` members lose it.
fn thin_out(neighbours: &Neighbours, curriculum: u32, slot: Slot, lost: u32) -> ChildEstimate {
    let mut gain = ChildEstimate::NONE;
    let pinned = neighbours.pinned(curriculum, slot.day);
    if let Some(before) = slot.period.checked_sub(1)
        && pinned & bit_of(before) != 0
    {
        let beside = neighbours.live_around(curriculum, slot.day, before);
        gain.add(isolation(beside, lost));
    }
    let after = slot.period.saturating_add(1);
    if pinned & bit_of(after) != 0 {
        let beside = neighbours.live_around(curriculum, slot.day, after);
        gain.add(isolation(beside, lost));
    }
    gain
}

/// Returns the gain if a period of a curriculum is pinned.
fn pin(neighbours: &Neighbours, curriculum: u32, slot: Slot) -> ChildEstimate {
    if neighbours.pinned(curriculum, slot.day) & bit_of(slot.period) != 0 {
        return ChildEstimate::NONE;
    }
    let beside = neighbours.live_around(curriculum, slot.day, slot.period);
    if beside == 0 {
        return ChildEstimate {
            cost: u64::from(ISOLATED_COST),
            expected: 0,
        };
    }
    ChildEstimate {
        cost: 0,
        expected: weight(beside),
    }
}

impl Gains {
    const NONE: Gains = Gains {
        yes: ChildEstimate::NONE,
        no: ChildEstimate::NONE,
    };
}

fn gains_of(gains: &[Gains], course: u32) -> Gains {
    gains.get(course as usize).copied().unwrap_or(Gains::NONE)
}

fn add_yes(gains: &mut [Gains], course: u32, gain: ChildEstimate) {
    if let Some(both) = gains.get_mut(course as usize) {
        both.yes.add(gain);
    }
}

fn add_no(gains: &mut [Gains], course: u32, gain: ChildEstimate) {
    if let Some(both) = gains.get_mut(course as usize) {
        both.no.add(gain);
    }
}

/// Returns the total gain if the courses of a word lose a period.
fn sum_of_no(gains: &[Gains], word: u32, set: u64) -> ChildEstimate {
    let mut gain = ChildEstimate::NONE;
    let mut left = set;
    for _ in 0..set.count_ones() {
        gain.add(gains_of(gains, first_course(word, left)).no);
        left &= left.wrapping_sub(1);
    }
    gain
}

/// Returns the periods before and after a period, as bits.
fn around(period: u32) -> u64 {
    let before = period.checked_sub(1).map_or(0, bit_of);
    before | bit_of(period.saturating_add(1))
}

impl BranchingTables<'_, '_> {
    /// Returns the courses for which the period is open.
    fn open_at(&self, alloc: Global, slot: Slot) -> Result<Vec<u32>, AllocError> {
        (0..self.instance.courses())
            .filter(|course| self.prospects.is_open(*course, slot.day, slot.period))
            .collect(alloc)
    }

    /// Starts with the gains of each course itself.
    fn start(&self, slot: Slot, open: &[u32], gains: &mut [Gains]) {
        for course in open {
            if let Some(both) = gains.get_mut(*course as usize) {
                *both = Gains {
                    yes: hold(self.prospects, *course),
                    no: loss(self.prospects, *course, slot),
                };
            }
        }
    }

    /// Returns the gain of the courses that conflict with a course when it is in the period.
    fn rivals(&self, course: u32, set: &CourseSet, gains: &[Gains]) -> ChildEstimate {
        let mut gain = ChildEstimate::NONE;
        for word in 0..words_for(self.instance) {
            let rivals = rivals_in(self.instance, course, word) & set.word(word);
            gain.add(sum_of_no(gains, word, rivals));
        }
        gain
    }

    fn add_rivals(&self, open: &[u32], set: &CourseSet, gains: &mut [Gains]) {
        for course in open {
            let gain = self.rivals(*course, set, gains);
            add_yes(gains, *course, gain);
        }
    }

    /// Returns the number of members of a curriculum that lose a period to a course of another curriculum.
    fn lost(&self, curriculum: u32, course: u32, slot: Slot) -> u32
        requires { curriculum < length self.now.instance.now.curricula }
    {
        let mut lost: u32 = 0;
        for member in self.instance.members(curriculum) {
            if self.instance.conflict(course, *member)
                && self.prospects.is_open(*member, slot.day, slot.period)
            {
                lost = lost.saturating_add(1);
            }
        }
        lost
    }

    /// Returns the courses of a word that conflict with a member whose period is open, and are no members.
    fn others_in(&self, curriculum: u32, slot: Slot, word: u32) -> u64
        requires { curriculum < length self.now.instance.now.curricula }
    {
        let mut rivals: u64 = 0;
        let mut members: u64 = 0;
        for member in self.instance.members(curriculum) {
            members |= bit_in(word, *member);
            if self.prospects.is_open(*member, slot.day, slot.period) {
                rivals |= rivals_in(self.instance, *member, word);
            }
        }
        rivals & !members
    }

    /// Adds the gains of a curriculum's pinned periods by some courses of a word.
    fn add_word(&self, curriculum: u32, slot: Slot, word: u32, others: u64, gains: &mut [Gains])
        requires { curriculum < length self.now.instance.now.curricula }
    {
        let mut left = others;
        for _ in 0..others.count_ones() {
            let course = first_course(word, left);
            left &= left.wrapping_sub(1);
            let lost = self.lost(curriculum, course, slot);
            add_yes(
                gains,
                course,
                thin_out(self.neighbours, curriculum, slot, lost),
            );
        }
    }

    /// Adds the gains of a curriculum's pinned periods by courses of other curricula.
    fn add_others(&self, curriculum: u32, slot: Slot, set: &CourseSet, gains: &mut [Gains])
        requires { curriculum < length self.now.instance.now.curricula }
    {
        for word in 0..words_for(self.instance) {
            let others = self.others_in(curriculum, slot, word) & set.word(word);
            self.add_word(curriculum, slot, word, others, gains);
        }
    }

    /// Adds the gains of a curriculum.
    fn add_curriculum(&self, curriculum: u32, slot: Slot, set: &CourseSet, gains: &mut [Gains])
        requires { curriculum < length self.now.instance.now.curricula }
    {
        let others = self
            .neighbours
            .live(curriculum, slot.day, slot.period)
            .saturating_sub(1);
        let mut yes = pin(self.neighbours, curriculum, slot);
        yes.add(thin_out(self.neighbours, curriculum, slot, others));
        let no = thin_out(self.neighbours, curriculum, slot, 1);
        for member in self.instance.members(curriculum) {
            add_yes(gains, *member, yes);
            add_no(gains, *member, no);
        }
        if self.neighbours.pinned(curriculum, slot.day) & around(slot.period) != 0 {
            self.add_others(curriculum, slot, set, gains);
        }
    }

    fn add_curricula(&self, slot: Slot, set: &CourseSet, gains: &mut [Gains]) {
        for curriculum in 0..self.instance.curricula() {
            self.add_curriculum(curriculum, slot, set, gains);
        }
    }

    /// Returns the best candidate of a period, if it is better than the one found before.
    fn best_at(
        &self,
        alloc: Global,
        slot: Slot,
        gains: &mut [Gains],
        found: Option<Candidate>,
    ) -> Result<Option<Candidate>, AllocError> {
        let open = self.open_at(alloc, slot)?;
        let set = CourseSet::new(alloc, self.instance, &open)?;
        self.start(slot, &open, gains);
        self.add_rivals(&open, &set, gains);
        self.add_curricula(slot, &set, gains);
        Ok(best_of(slot, &open, gains, found))
    }

    fn best_on(
        &self,
        alloc: Global,
        day: u32,
        gains: &mut [Gains],
        found: Option<Candidate>,
    ) -> Result<Option<Candidate>, AllocError> {
        let mut found = found;
        for period in 0..self.instance.periods() {
            found = self.best_at(alloc, Slot { day, period }, gains, found)?;
        }
        Ok(found)
    }
}

/// Returns the best of the open courses of a period, or the candidate that was found before.
fn best_of(
    slot: Slot,
    open: &[u32],
    gains: &[Gains],
    found: Option<Candidate>,
) -> Option<Candidate> {
    let mut found = found;
    for course in open {
        let Gains { yes, no } = gains_of(gains, *course);
        let score = yes.parts().saturating_mul(no.parts());
        if found.is_none_or(|best| score > best.score) {
            found = Some(Candidate {
                course: *course,
                day: slot.day,
                period: slot.period,
                score,
            });
        }
    }
    found
}

/// Returns the course and the period whose children gain most, considering both.
pub fn best_candidate(
    alloc: Global,
    instance: &Instance<'_>,
    prospects: &Prospects,
) -> Result<Option<Candidate>, AllocError> {
    let neighbours = Neighbours::new(alloc, instance, prospects)?;
    let mut gains = vec![in alloc; Gains::NONE; instance.courses() as usize]?;
    let scene = BranchingTables {
        instance,
        prospects,
        neighbours: &neighbours,
    };
    let mut found = None;
    for day in 0..instance.days() {
        found = scene.best_on(alloc, day, gains.as_mut_slice(), found)?;
    }
    Ok(found)
}
