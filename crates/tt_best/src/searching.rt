//! Rounds that search for a timetable and for lower bounds in turn.

ghost use Rattle.std.specs.Prelude.{IfOk, IfSome, None, ◌≡◌};
ghost use Rattle.tt_table.specs.Table.{IsTimetable};
ghost use Rattle.tt_best.specs.Weeks.{IsWeek, IsNoWorseThan, IsNoHigher, BeginsWell};

use crate::bounds::{is_settled, search_bounds};
use crate::start::{Start, first_week};
use crate::watch::{Aiming, WatchRounds};
use crate::week::Week;
use std::alloc::{AllocError, Global};
use tt_instance::Instance;
use tt_parts::Effort;
use tt_rules::score;
use tt_search::{Search, improve};
use tt_table::Timetable;
use tt_watch::Watch;

/// The number of steps of a later round for each pair of lectures, and the least and the greatest number of its steps. There are two cycles of the
/// search then, each of which forgets the timetable with which it begins, so another round gains more than a longer one.
const STEPS_OF_A_PAIR: u64 = 140;

const FEWEST_STEPS: u64 = 2_900_000;

const MOST_STEPS: u64 = 20_000_000;

/// The number by which a seed is multiplied, so that no round has the seed of a round of the next search.
const SEED_FACTOR: u64 = 0x9e37_79b9_7f4a_7c15;

/// The number of nodes that the first search for bounds may use up, and each one after a better timetable.
pub const FIRST_NODES: u32 = 3_000;

/// The number of nodes that a search for bounds whose turn it is may use up, for each round before it.
const LATER_NODES: u32 = 2_500;

/// The maximum number of nodes that a search for bounds may use up.
const MOST_NODES: u32 = 1_000_000;

/// The maximum length of the search, and the seed of its random choices.
#[derive(Clone, Copy, Debug, PartialEq, Eq)]
pub struct Rounds {
    /// The maximum number of rounds; the first one is always made.
    pub count: u64,
    pub seed: u64,
}

/// Returns the maximum number of nodes of a later round's search for bounds: in few rounds it is its turn, with twice as many each time; in the
/// others there are none unless there is a better timetable.
pub fn nodes_of(round: u64, is_better: bool) -> u32 {
    if round.count_ones() == 1 {
        let nodes = u64::from(LATER_NODES).saturating_mul(round);
        return u32::try_from(nodes).unwrap_or(MOST_NODES).min(MOST_NODES);
    }
    if is_better { FIRST_NODES } else { 0 }
}

/// Returns the number of steps that a later round makes for a better timetable.
pub fn steps_of(table: &Timetable) -> u64 {
    let lectures = table.len() as u64;
    lectures
        .saturating_mul(lectures)
        .saturating_mul(STEPS_OF_A_PAIR)
        .clamp(FEWEST_STEPS, MOST_STEPS)
}

/// Returns the seed of a later round.
pub fn seed_of(rounds: Rounds, round: u64) -> u64 {
    rounds.seed.wrapping_mul(SEED_FACTOR).wrapping_add(round)
}

/// Checks whether the search ends with this result: nothing is left to search for, or the watch ends it.
fn is_over<W: Watch>(instance: &Instance<'_>, week: &Week, watch: &mut W) -> bool
    requires { IsTimetable instance.now week.now.table }
{
    is_settled(instance, week) || watch.is_over()
}

/// Gives the result so far to the watch, if it asks for it.
fn keep_if_asked<W: WatchRounds>(instance: &Instance<'_>, week: &Week, watch: &mut W)
    requires { IsWeek instance.now week.now }
{
    if watch.is_keeping() {
        watch.keep(instance, week);
    }
}

/// Makes the first round: a tree if no proofs are given, and bounds if there is something to search for.
fn begin<W: WatchRounds>(
    alloc: Global,
    instance: &Instance<'_>,
    rounds: Rounds,
    start: Start<'_>,
    watch: &mut W,
) -> Result<Week, AllocError>
    requires { IfSome start.table (IsTimetable instance.now) }
    ensures week { IfOk result (IsWeek instance.now) }
    ensures no_worse { IfOk result (λ w. IsNoWorseThan instance.now start.entry.table w.table) }
    ensures begun { start.entry.table ≡ None → IfOk result (λ w. BeginsWell instance.now w.table) }
{
    let week = first_week(alloc, instance, start, rounds.seed, watch)?;
    if is_over(instance, &week, watch) {
        return Ok(week);
    }
    keep_if_asked(instance, &week, watch);
    let effort = Effort {
        nodes: FIRST_NODES,
        seed: rounds.seed,
    };
    search_bounds(alloc, instance, &[], week, effort, watch)
}

/// Searches for a better timetable until its cost is the bound.
fn improve_week<W: Watch>(
    alloc: Global,
    instance: &Instance<'_>,
    week: Week,
    search: Search,
    watch: &mut W,
) -> Result<Week, AllocError>
    requires { IsWeek instance.now week }
    ensures week { IfOk result (IsWeek instance.now) }
    ensures no_higher { IfOk result (λ w. IsNoHigher instance.now week.table w.table) }
{
    let Week { table, parts } = week;
    let Search { seed, steps } = search;
    let mut aiming = Aiming::new(parts.bound, watch);
    let table = improve(alloc, instance, table, seed, steps, &mut aiming)?;
    Ok(Week { table, parts })
}

/// Makes another round, from the result of the one before it.
fn search_round<W: WatchRounds>(
    alloc: Global,
    instance: &Instance<'_>,
    week: Week,
    rounds: Rounds,
    round: u64,
    watch: &mut W,
) -> Result<Week, AllocError>
    requires { IsWeek instance.now week }
    ensures week { IfOk result (IsWeek instance.now) }
    ensures no_higher { IfOk result (λ w. IsNoHigher instance.now week.table w.table) }
{
    let before = score(instance, &week.table);
    let seed = seed_of(rounds, round);
    let steps = steps_of(&week.table);
    let search = Search { seed, steps };
    let better = improve_week(alloc, instance, week, search, watch)?;
    let after = score(instance, &better.table);
    let nodes = nodes_of(round, after.cost() < before.cost());
    if nodes == 0 || is_over(instance, &better, watch) {
        return Ok(better);
    }
    let effort = Effort { nodes, seed };
    search_bounds(alloc, instance, &[], better, effort, watch)
}

/// Searches for a best timetable and for proofs of a lower bound, in rounds, until they meet or the watch ends the search. It begins with the
/// results of an earlier search, if there are any. The same seed gives the same results, unless the watch ends the search. It makes no promise
/// about how good they are, except that the timetable is no worse than the given one, or than a descent from a constructed one.
pub fn find_best<W: WatchRounds>(
    alloc: Global,
    instance: &Instance<'_>,
    rounds: Rounds,
    start: Start<'_>,
    watch: &mut W,
) -> Result<Week, AllocError>
    requires { IfSome start.table (IsTimetable instance.now) }
    // The result is a timetable, and the proofs add up to the bound, which holds for every feasible timetable.
    ensures week { IfOk result (IsWeek instance.now) }
    ensures no_worse { IfOk result (λ w. IsNoWorseThan instance.now start.entry.table w.table) }
    ensures begun { start.entry.table ≡ None → IfOk result (λ w. BeginsWell instance.now w.table) }
{
    let most = rounds.count.max(1);
    watch.see_round(1, most);
    let mut week = begin(alloc, instance, rounds, start, watch)?;
    for round in 1..most {
        if is_over(instance, &week, watch) {
            break;
        }
        keep_if_asked(instance, &week, watch);
        watch.see_round(round + 1, most);
        week = search_round(alloc, instance, week, rounds, round, watch)?;
    }
    Ok(week)
}
