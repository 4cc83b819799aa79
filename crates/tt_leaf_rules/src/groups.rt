//! Courses that conflict, distinct courses, and the periods and rooms that are open to them.

ghost use Rattle.std.specs.Prelude.{◌≡◌, ◌<◌, ◌≤◌, ◌+◌, ◌-◌, ◌*◌, ◌^◌, ◌==◌, ◌&&◌, ℕ, not, min, nat_lt, length};
ghost use Rattle.std.specs.List.{list_all};
ghost use Rattle.tt_list_laws.specs.Words.{each_two, are_distinct};
ghost use Rattle.tt_bits.specs.Inner.Bits.{has_bit};
ghost use Rattle.tt_instance.specs.Cells.{slot};
ghost use Rattle.tt_instance.specs.Courses.{conflict};
ghost use Rattle.tt_leaf_rules.specs.Leaves.{all_lectures, open_periods, open_rooms};
ghost use Rattle.tt_leaf_rules.specs.Inner.Nested.{live_for, live_in, open_in_period};
ghost use Rattle.tt_leaf.specs.Ranges.{AreBelow};
ghost use Rattle.tt_leaf_rules.specs.Tests.{is_clique};
ghost use Rattle.tt_instance.specs.declared.limit.TheConstants.{MAX_COURSES, MAX_ROOMS, MAX_SLOTS};

use crate::number_set::{MAX_COMPARED, NumberSet};
use crate::slots::{slot_at, slot_count};
use tt_bits::{below, count, either};
use tt_instance::{Instance, MAX_PERIODS};
use tt_path::Path;

fn is_in_conflict_with_each(instance: &Instance<'_>, course: u32, others: &[u32]) -> bool
    ensures { result ≡ list_all (conflict instance.now course) others.now }
{
    others.iter().all(|other| instance.conflict(course, *other))
}

fn are_pairwise_in_conflict(instance: &Instance<'_>, courses: &[u32]) -> bool
    ensures { result ≡ each_two (conflict instance.now) courses.now }
{
    let mut rest = courses;
    while let Some((first, others)) = rest.split_first() {
        if !is_in_conflict_with_each(instance, *first, others) {
            return false;
        }
        rest = others;
    }
    true
}

/// Returns whether at least one course is given, and each two of the courses conflict.
pub fn is_clique(instance: &Instance<'_>, courses: &[u32]) -> bool
    ensures { result ≡ is_clique instance.now courses.now }
{
    !courses.is_empty() && are_pairwise_in_conflict(instance, courses)
}

fn is_other_than_each(course: u32, others: &[u32]) -> bool
    ensures { result ≡ list_all (λ other. not (course == other)) others.now }
{
    others.iter().all(|other| course != *other)
}

fn are_pairwise_distinct(courses: &[u32]) -> bool
    ensures { result ≡ are_distinct courses.now }
{
    let mut rest = courses;
    while let Some((first, others)) = rest.split_first() {
        if !is_other_than_each(*first, others) {
            return false;
        }
        rest = others;
    }
    true
}

/// Returns whether no course occurs twice, by marks, without comparing each two courses. Not inlined, since its marks are on the stack.
#[inline(never)]
fn are_new(courses: &[u32]) -> bool
    requires { AreBelow MAX_COURSES courses.now }
    ensures { result ≡ are_distinct courses.now }
{
    let mut taken = NumberSet::none();
    let mut rest = courses;
    while let Some((first, others)) = rest.split_first() {
        if !taken.insert(*first as usize) {
            return false;
        }
        rest = others;
    }
    true
}

/// Returns whether no course occurs twice.
pub fn are_distinct(courses: &[u32]) -> bool
    requires { AreBelow MAX_COURSES courses.now }
    ensures { result ≡ are_distinct courses.now }
{
    if courses.len() <= MAX_COMPARED {
        are_pairwise_distinct(courses)
    } else {
        are_new(courses)
    }
}

/// Returns the total number of lectures of courses, capped at the maximum of a u64.
fn all_lectures(instance: &Instance<'_>, courses: &[u32]) -> u64
    requires { AreBelow (length instance.now.courses) courses.now }
    ensures { result ≡ min (all_lectures instance.now courses.now) (2 ^ 64 - 1) }
{
    let mut total: u64 = 0;
    for course in courses {
        total = total.saturating_add(u64::from(instance.lectures(*course)));
    }
    total
}

/// Returns whether courses have more lectures than `places`.
#[tactic(auto, using(crate::proofs::Sizes::below_capped))]
pub fn has_more_lectures(instance: &Instance<'_>, courses: &[u32], places: u32) -> bool
    requires { AreBelow (length instance.now.courses) courses.now }
    ensures { result ≡ nat_lt places (all_lectures instance.now courses.now) }
{
    u64::from(places) < all_lectures(instance, courses)
}

/// Returns the periods of a day in which one of the courses has a live cell, as a set.
pub fn open_on<'i, P: Path<'i>>(path: &P, courses: &[u32], day: u32) -> u64
    requires courses { AreBelow (length (P.problem path.now).courses) courses.now }
    requires day { day < (P.problem path.now).days }
    ensures { (s : ℕ) → s < 64 → has_bit result s ≡ (nat_lt s (P.problem path.now).periods
        && live_for (P.problem path.now) (P.facts path.now) courses.now (slot day s)) }
{
    let mut open = 0;
    for course in courses {
        open = either(open, path.live_periods(*course, day));
    }
    open
}

/// Counts the periods that have a live cell of one of the courses.
pub fn open_periods<'i, P: Path<'i>>(path: &P, courses: &[u32]) -> u32
    requires { AreBelow (length (P.problem path.now).courses) courses.now }
    ensures value { result ≡ open_periods (P.problem path.now) (P.facts path.now) courses.now }
    ensures within { result ≤ MAX_SLOTS }
{
    // Brings the instance's limits into the proof.
    prove!(path.instance().periods() <= MAX_PERIODS);
    let mut total = 0;
    for day in 0..path.instance().days() {
        total += count(open_on(path, courses, day));
    }
    total
}

/// Returns the rooms of a block in which one of the courses has a live cell in the period, as a set. Once each room has one, no further course is
/// visited.
fn open_block<'i, P: Path<'i>>(path: &P, courses: &[u32], day: u32, period: u32, block: u32) -> u64
    requires courses { AreBelow (length (P.problem path.now).courses) courses.now }
    requires day { day < (P.problem path.now).days }
    requires period { period < (P.problem path.now).periods }
    requires block { block * 64 < length (P.problem path.now).rooms }
    ensures { (n : ℕ) → n < 64 → has_bit result n ≡ (nat_lt (block * 64 + n) (length (P.problem path.now).rooms)
        && live_in (P.problem path.now) (P.facts path.now) courses.now (block * 64 + n) (slot day period)) }
{
    let all = below(path.instance().rooms() - block * 64);
    let mut open = 0;
    for course in courses {
        if open == all {
            return open;
        }
        open = either(open, path.live_rooms(*course, day, period, block));
    }
    open
}

/// Counts the rooms that have a live cell of one of the courses in the period.
fn open_in_period<'i, P: Path<'i>>(path: &P, courses: &[u32], day: u32, period: u32) -> u32
    requires courses { AreBelow (length (P.problem path.now).courses) courses.now }
    requires day { day < (P.problem path.now).days }
    requires period { period < (P.problem path.now).periods }
    ensures value { result ≡ open_in_period (P.problem path.now) (P.facts path.now) courses.now (slot day period) }
    ensures within { result ≤ MAX_ROOMS }
{
    let mut total = 0;
    for block in 0..(path.instance().rooms() + 63) / 64 {
        total += count(open_block(path, courses, day, period, block));
    }
    total
}

/// Counts the pairs of a room and a period that have a live cell of one of the courses.
pub fn open_rooms<'i, P: Path<'i>>(path: &P, courses: &[u32]) -> u32
    requires { AreBelow (length (P.problem path.now).courses) courses.now }
    ensures value { result ≡ open_rooms (P.problem path.now) (P.facts path.now) courses.now }
    ensures within { result ≤ MAX_SLOTS * MAX_ROOMS }
{
    let instance = path.instance();
    let mut total = 0;
    for place in 0..slot_count(instance) {
        let slot = slot_at(instance, place);
        total += open_in_period(path, courses, slot.day, slot.period);
    }
    total
}
