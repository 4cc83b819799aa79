//! Kempe chains.

use crate::linking::{Links, Span};
use crate::weighing::{Weigher, more_clashes, more_missing_days};
use std::alloc::{AllocError, Global};
use tt_plans::{CLASH_COST, Facts, ISOLATION_COST, Plan};

/// A chain of lectures that change sides between two slots: those that conflict with each other, in turn.
#[derive(Drop)]
pub struct Chain {
    links: Links,
    weigher: Weigher,
}

impl Chain {
    /// Makes the tables. Fails if memory runs out.
    pub fn new(alloc: Global, facts: &Facts) -> Result<Chain, AllocError> {
        Ok(Chain {
            links: Links::new(alloc, facts.sizes.lectures)?,
            weigher: Weigher::new(alloc, facts)?,
        })
    }

    /// Makes the chain of a lecture and another slot, if it can be made and costs at most `limit`. Returns whether it was made.
    pub fn turn(
        &mut self,
        facts: &Facts,
        plan: &mut Plan<'_, '_>,
        lecture: u32,
        slot: usize,
        limit: i64,
    ) -> bool {
        let span = Span {
            first: plan.slot_of(lecture),
            second: slot,
        };
        let course = facts.course_of(lecture);
        let is_nowhere = span.first >= facts.sizes.slots;
        if is_nowhere || span.first == slot || plan.has_lecture(course, slot) {
            return false;
        }
        if !self.links.find(facts, plan, lecture, span)
            || !self
                .weigher
                .are_levels_kept(facts, plan, self.links.all(), span)
        {
            return false;
        }
        self.make(facts, plan, span, limit)
    }

    /// Makes the chain that was found, if it costs at most `limit`. Returns whether it was made.
    fn make(&mut self, facts: &Facts, plan: &mut Plan<'_, '_>, span: Span, limit: i64) -> bool {
        let links = self.links.all();
        let missing = more_missing_days(facts, plan, links, span);
        let isolated = self.weigher.more_isolated(facts, plan, links, span);
        let clashes = more_clashes(plan, links, span);
        let change = missing
            .wrapping_mul(plan.day_cost)
            .wrapping_add(isolated.wrapping_mul(ISOLATION_COST))
            .wrapping_add(clashes.wrapping_mul(CLASH_COST));
        if change > limit {
            return false;
        }
        for link in links {
            plan.lift(facts, link.lecture);
        }
        for link in links {
            let (_, to) = span.ends(*link);
            plan.set_down(facts, link.lecture, to);
        }
        plan.cost = plan.cost.wrapping_add(change);
        plan.missing_days = plan.missing_days.wrapping_add(missing);
        plan.clashes = plan.clashes.wrapping_add(clashes);
        true
    }
}
