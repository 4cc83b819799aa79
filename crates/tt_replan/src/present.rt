//! The cost of the present plan of a group.

use crate::board::Board;
use crate::folding::crowding_cost;
use crate::spelling::isolation;
use tt_replan_tables::{Group, Member};

/// Returns the group's curricula that are taught in a period, as a set.
fn taught(board: &Board, group: &Group, slot: usize) -> u128 {
    let place = board.week.slot(slot);
    let mut curricula = place.fixed;
    for member in group.members() {
        if place.present & member.set != 0 {
            curricula |= board.links.get(member.course).curricula;
        }
    }
    curricula
}

/// Returns the cost of isolated lectures on a day that begins with this period.
fn isolation_on(board: &Board, group: &Group, first: usize) -> u32 {
    let (mut before, mut here) = (0, 0);
    let mut cost: u32 = 0;
    for period in 0..board.week.periods {
        let after = taught(board, group, first.wrapping_add(period));
        cost = cost.wrapping_add(isolation(before, here, after));
        before = here;
        here = after;
    }
    cost.wrapping_add(isolation(before, here, 0))
}

/// Returns the cost of a member's rooms and days.
fn member_cost(board: &Board, number: usize, member: Member) -> u32 {
    let week = &board.week;
    let (mut cost, mut days): (u32, u32) = (0, 0);
    for day in 0..week.days {
        let mut is_taught = false;
        for period in 0..week.periods {
            let slot = day.wrapping_mul(week.periods).wrapping_add(period);
            if week.slot(slot).present & member.set != 0 {
                is_taught = true;
                cost = cost.wrapping_add(board.prices.get(slot, number).noisy);
            }
        }
        days = days.saturating_add(u32::from(is_taught));
    }
    cost.wrapping_add(crowding_cost(member.lectures, member.slack, days))
}

/// Returns the cost of the present plan.
pub fn present_cost(board: &Board, group: &Group) -> u32 {
    let mut cost: u32 = 0;
    for day in 0..board.week.days {
        let first = day.wrapping_mul(board.week.periods);
        cost = cost.wrapping_add(isolation_on(board, group, first));
    }
    for (number, member) in group.members().iter().enumerate() {
        cost = cost.wrapping_add(member_cost(board, number, *member));
    }
    cost
}
