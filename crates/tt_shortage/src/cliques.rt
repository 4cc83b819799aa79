//! Courses any two of which conflict, grown from each course.

use crate::crowds::{Crowds, set_mark};
use crate::openings::{Openings, has_bit, word_at, word_count};
use crate::shortage::Contested;
use std::alloc::{AllocError, Global};
use tt_instance::Instance;

/// The most steps in which the next course of a clique is chosen by what it brings; a step looks at a word of 64 courses or periods.
const MOST_STEPS: u64 = 30_000_000;

/// How the next course of a clique is chosen.
#[derive(Clone, Copy)]
enum Choice {
    /// It brings the most lectures beyond its new periods.
    Lectures,
    /// It leaves the most courses that can still be taken.
    Fellows,
}

/// Courses any two of which conflict, none of them in a set that was found.
#[derive(Drop)]
struct Clique {
    members: Vec<bool>,
    lectures: u64,
    /// The courses that conflict with each member, as bits.
    fellows: Vec<u64>,
    /// The periods that are open to one of the members, as bits.
    covered: Vec<u64>,
}

impl Clique {
    /// Creates the clique of one course, which takes courses that are free.
    fn of(
        alloc: Global,
        instance: &Instance<'_>,
        openings: &Openings,
        course: u32,
        free: &[u64],
    ) -> Result<Clique, AllocError> {
        let mut clique = Clique {
            members: vec![in alloc; false; openings.courses()]?,
            lectures: 0,
            fellows: Vec::from_slice(alloc, free)?,
            covered: vec![in alloc; 0u64; word_count(openings.periods_of_week())]?,
        };
        clique.add(instance, openings, course);
        Ok(clique)
    }

    /// Returns whether a course conflicts with each member, and the members don't have too many lectures yet for the week.
    fn can_take(&self, openings: &Openings, course: u32) -> bool {
        self.lectures <= openings.periods_of_week() as u64
            && has_bit(&self.fellows, course as usize)
    }

    /// Adds a course that conflicts with each member.
    fn add(&mut self, instance: &Instance<'_>, openings: &Openings, course: u32) {
        set_mark(&mut self.members, course as usize, true);
        self.lectures = self
            .lectures
            .saturating_add(u64::from(openings.lectures(course)));
        let rivals = instance.conflict_words(course);
        for (place, word) in self.fellows.iter_mut().enumerate() {
            *word &= word_at(rivals, place);
        }
        let open = openings.bits(course);
        for (place, word) in self.covered.iter_mut().enumerate() {
            *word |= word_at(open, place);
        }
    }

    /// Counts the periods that are open to a course and to no member.
    fn new_periods(&self, openings: &Openings, course: u32) -> u32 {
        let mut count: u32 = 0;
        for (place, word) in openings.bits(course).iter().enumerate() {
            count = count.saturating_add((*word & !word_at(&self.covered, place)).count_ones());
        }
        count
    }

    /// Counts the courses that conflict with each member and with a course.
    fn fellows_with(&self, instance: &Instance<'_>, course: u32) -> u32 {
        let rivals = instance.conflict_words(course);
        let mut count: u32 = 0;
        for (place, word) in self.fellows.iter().enumerate() {
            count = count.saturating_add((*word & word_at(rivals, place)).count_ones());
        }
        count
    }

    /// Returns how good it is to take a course.
    fn worth(
        &self,
        instance: &Instance<'_>,
        openings: &Openings,
        course: u32,
        choice: Choice,
    ) -> u64 {
        match choice {
            Choice::Lectures => u64::from(openings.lectures(course))
                .saturating_add(openings.periods_of_week() as u64)
                .saturating_sub(u64::from(self.new_periods(openings, course))),
            Choice::Fellows => u64::from(self.fellows_with(instance, course)),
        }
    }

    /// Returns the best course to take.
    fn best(
        &self,
        instance: &Instance<'_>,
        openings: &Openings,
        choice: Choice,
        steps: &mut Steps,
    ) -> Option<u32> {
        let mut found: Option<u32> = None;
        let mut most = 0;
        for course in openings.order() {
            if !self.can_take(openings, *course) {
                continue;
            }
            steps.take(self.fellows.len() as u64);
            let worth = self.worth(instance, openings, *course, choice);
            if found.is_none() || worth > most {
                found = Some(*course);
                most = worth;
            }
        }
        found
    }
}

/// The steps that may still be taken.
#[derive(Drop)]
struct Steps {
    left: u64,
}

impl Steps {
    fn take(&mut self, steps: u64) {
        self.left = self.left.saturating_sub(steps);
    }
}

/// Takes into a clique each course, in this order, that conflicts with those before it.
fn grow_in_order(
    instance: &Instance<'_>,
    openings: &Openings,
    seed: Clique,
    order: &[u32],
) -> Vec<bool> {
    let mut clique = seed;
    for course in order {
        if clique.can_take(openings, *course) {
            clique.add(instance, openings, *course);
        }
    }
    clique.members
}

/// Takes the best course into a clique again and again.
fn grow_by_choice(
    instance: &Instance<'_>,
    openings: &Openings,
    seed: Clique,
    choice: Choice,
    steps: &mut Steps,
) -> Vec<bool> {
    let mut clique = seed;
    for _ in 0..openings.courses() {
        let Some(course) = clique.best(instance, openings, choice, steps) else {
            break;
        };
        clique.add(instance, openings, course);
    }
    clique.members
}

/// Searches the cliques that grow from each course when courses are taken in this order.
fn search_order(
    alloc: Global,
    instance: &Instance<'_>,
    openings: &Openings,
    order: &[u32],
    crowds: &mut Crowds,
) -> Result<(), AllocError> {
    for course in openings.order() {
        if crowds.are_enough() {
            break;
        }
        if has_bit(crowds.free(), *course as usize) {
            let seed = Clique::of(alloc, instance, openings, *course, crowds.free())?;
            let members = grow_in_order(instance, openings, seed, order);
            crowds.search(alloc, openings, members, Contested::Periods)?;
        }
    }
    Ok(())
}

/// Searches the cliques that grow from each course by choice, until the steps are used up.
fn search_choice(
    alloc: Global,
    instance: &Instance<'_>,
    openings: &Openings,
    choice: Choice,
    crowds: &mut Crowds,
) -> Result<(), AllocError> {
    let mut steps = Steps { left: MOST_STEPS };
    for course in openings.order() {
        if crowds.are_enough() || steps.left == 0 {
            break;
        }
        if has_bit(crowds.free(), *course as usize) {
            let seed = Clique::of(alloc, instance, openings, *course, crowds.free())?;
            let members = grow_by_choice(instance, openings, seed, choice, &mut steps);
            crowds.search(alloc, openings, members, Contested::Periods)?;
        }
    }
    Ok(())
}

/// Searches the cliques that grow from each course. Taken first are courses with the fewest open periods, or with the most lectures, or
/// those that bring the most lectures beyond their new periods, or those that leave the most courses to be taken.
pub fn search_cliques(
    alloc: Global,
    instance: &Instance<'_>,
    openings: &Openings,
    crowds: &mut Crowds,
) -> Result<(), AllocError> {
    let mut longest = Vec::from_slice(alloc, openings.order())?;
    longest.sort_unstable_by_key(|course| (
        u32::MAX.saturating_sub(openings.lectures(*course)),
        *course,
    ));
    search_order(alloc, instance, openings, openings.order(), crowds)?;
    search_order(alloc, instance, openings, &longest, crowds)?;
    search_choice(alloc, instance, openings, Choice::Lectures, crowds)?;
    search_choice(alloc, instance, openings, Choice::Fellows, crowds)
}
