//! What a chain changes.

use crate::linking::{Link, Span};
use std::alloc::{AllocError, Global};
use tt_plans::{Facts, Plan, alone_if_freed, alone_if_taken};
use tt_plans_tables::put;

/// What a chain changes, and the tables to find it.
#[derive(Drop)]
pub struct Weigher {
    /// By how much more lectures leave than enter the first slot, for each number of rooms, less 1.
    leaving: Vec<i32>,
    /// Whether each curriculum changes: it is odd if so.
    turns: Vec<u8>,
    /// The curricula that were touched.
    touched: Vec<u32>,
    count: usize,
}

/// Returns by how much more days a course misses once a lecture moves from one day to another.
fn more_missing(facts: &Facts, plan: &Plan<'_, '_>, course: usize, from: usize, to: usize) -> i64 {
    if from == to {
        return 0;
    }
    let more = i64::from(plan.on_day(course, to) == 0).wrapping_sub(i64::from(
        plan.on_day(course, from) == 1,
    ));
    if more == 0 {
        return 0;
    }
    plan.days_missing(facts, course, more)
        .wrapping_sub(plan.days_missing(facts, course, 0))
}

/// Returns by how much more days are missing after a chain.
pub fn more_missing_days(facts: &Facts, plan: &Plan<'_, '_>, links: &[Link], span: Span) -> i64 {
    let (first, second) = (facts.place(span.first).day, facts.place(span.second).day);
    let mut more: i64 = 0;
    if first == second {
        return more;
    }
    for link in links {
        let (from, to) = if link.leaves {
            (first, second)
        } else {
            (second, first)
        };
        let (_, entered) = span.ends(*link);
        if !plan.has_lecture(link.course, entered) {
            more = more.wrapping_add(more_missing(facts, plan, link.course, from, to));
        }
    }
    more
}

/// Returns by how many more lectures have a home that is taken after a chain. The counts of the plan are the same afterwards.
pub fn more_clashes(plan: &mut Plan<'_, '_>, links: &[Link], span: Span) -> i64 {
    let mut more: i64 = 0;
    for link in links {
        let (from, _) = span.ends(*link);
        let home = plan.home_of(link.course);
        let left = plan.at_home.add(from, home, -1);
        more = more.wrapping_sub(i64::from(left > 0));
    }
    for link in links {
        let (_, to) = span.ends(*link);
        let home = plan.home_of(link.course);
        let count = plan.at_home.add(to, home, 1);
        more = more.wrapping_add(i64::from(count > 1));
    }
    for link in links {
        let (from, to) = span.ends(*link);
        let home = plan.home_of(link.course);
        plan.at_home.add(from, home, 1);
        plan.at_home.add(to, home, -1);
    }
    more
}

/// Returns by how many more periods of a curriculum are isolated once it leaves one slot for another.
fn more_isolated(
    facts: &Facts,
    plan: &Plan<'_, '_>,
    curriculum: usize,
    from: usize,
    to: usize,
) -> i64 {
    let (left, entered) = (facts.place(from), facts.place(to));
    let day = plan.days.get(curriculum, left.day);
    let other = if left.day == entered.day {
        day ^ 4u64.wrapping_shl(left.period)
    } else {
        plan.days.get(curriculum, entered.day)
    };
    alone_if_freed(day, left.period).wrapping_add(alone_if_taken(other, entered.period))
}

impl Weigher {
    /// Makes the tables. Fails if memory runs out.
    pub fn new(alloc: Global, facts: &Facts) -> Result<Weigher, AllocError> {
        let sizes = facts.sizes;
        Ok(Weigher {
            leaving: vec![in alloc; 0i32; sizes.rooms]?,
            turns: vec![in alloc; 0u8; sizes.curricula]?,
            touched: vec![in alloc; 0u32; sizes.curricula]?,
            count: 0,
        })
    }

    /// Checks that no level that a chain lowers is below 0 afterwards, and that no slot has more lectures than there are rooms.
    pub fn are_levels_kept(
        &mut self,
        facts: &Facts,
        plan: &Plan<'_, '_>,
        links: &[Link],
        span: Span,
    ) -> bool {
        self.leaving.fill(0);
        for link in links {
            let level = facts.course(link.course).level;
            if let Some(place) = self.leaving.get_mut(level) {
                *place = place.wrapping_add(if link.leaves { 1 } else { -1 });
            }
        }
        let mut more: i32 = 0;
        let (first, second) = (plan.levels_in(span.first), plan.levels_in(span.second));
        for (level, leaving) in self.leaving.iter().enumerate() {
            more = more.wrapping_add(*leaving);
            if (more > 0 && second.left(level) < more)
                || (more < 0 && first.left(level) < more.wrapping_neg())
            {
                return false;
            }
        }
        true
    }

    /// Turns a curriculum.
    fn touch(&mut self, curriculum: u32) {
        let index = curriculum as usize;
        let turns = self.turns.get(index).copied().unwrap_or(0);
        if turns == 0 {
            put(&mut self.touched, self.count, curriculum);
            self.count = self.count.saturating_add(1);
        }
        put(&mut self.turns, index, (turns ^ 1) | 2);
    }

    /// Returns by how many more periods of curricula are isolated after a chain.
    pub fn more_isolated(
        &mut self,
        facts: &Facts,
        plan: &Plan<'_, '_>,
        links: &[Link],
        span: Span,
    ) -> i64 {
        self.count = 0;
        for link in links {
            for curriculum in facts.curricula.row(link.course) {
                self.touch(*curriculum);
            }
        }
        let place = facts.place(span.first);
        let bit = 4u64.wrapping_shl(place.period);
        let mut more: i64 = 0;
        for number in 0..self.count {
            let curriculum = self.touched.get(number).copied().unwrap_or(0) as usize;
            if self.turns.get(curriculum).copied().unwrap_or(0) & 1 != 0 {
                let is_first = plan.days.get(curriculum, place.day) & bit != 0;
                let (from, to) = if is_first {
                    (span.first, span.second)
                } else {
                    (span.second, span.first)
                };
                more = more.wrapping_add(more_isolated(facts, plan, curriculum, from, to));
            }
            put(&mut self.turns, curriculum, 0);
        }
        more
    }
}
