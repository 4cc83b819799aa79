//! The best timetable that a search has found.

ghost use Rattle.std.specs.Prelude.{◌≡◌, true, IfOk, IfSome, OnOk, IsNone, List};
ghost use Rattle.tt_instance.specs.Problem.{Problem};
ghost use Rattle.tt_instance.specs.declared.cell.Cell.{Cell};
ghost use Rattle.tt_table.specs.Table.{IsTimetable};
ghost use Rattle.tt_rules.specs.Score.{IsFeasible};
ghost use Rattle.tt_path.specs.Facts.{Fits};
ghost use Rattle.tt_search.specs.Improved.{IsNoWorse};
ghost use Rattle.tt_branch.specs.Outcomes.{final_bound, BeginsWell, IsNoDearer, Keeps};
ghost use Rattle.tt_branch.specs.Inner.BestSoFar.{IsBestSoFar, FitsRoot, table_of, IsCosted};

use crate::fitting::is_fitting;
use crate::improvement::Improvement;
use crate::limit::FIRST_STEPS;
use std::alloc::{AllocError, Global};
use tt_instance::Instance;
use tt_leaf::Bound;
use tt_path::Fact;
use tt_rules::score;
use tt_search::{construct, descend, improve};
use tt_table::Timetable;
use tt_watch::Watch;

/// The steps of a turn of the improvement after the descent: the minimum, the maximum, and the steps for each entry in each cell of a room. A turn
/// takes one or two seconds on an instance of real size.
const LEAST_STEPS: u64 = 2_000;

const MOST_STEPS: u64 = 100_000;

const STEPS_OF_A_CELL: u64 = 4;

/// The steps of every second turn: whether a short or a long walk does better differs between instances.
const MOST_LONG_STEPS: u64 = 400_000;

const LONG_STEPS_OF_A_CELL: u64 = 12;

/// The minimum number of turns, and the number of nodes of the limit for which there is another turn, which is as long as a walk may be.
const FIRST_TURNS: u32 = 3;

const NODES_OF_A_TURN: u32 = 65_536;

const MOST_LAST_STEPS: u64 = 1_000_000;

/// The maximum number of steps of a turn for each node of the limit, so that a search of few nodes ends soon.
const STEPS_OF_A_NODE: u64 = 1_000;

/// The turns of the improvement after the descent.
#[derive(Clone, Copy, Debug)]
pub struct Turns {
    count: u32,
    /// The maximum number of steps of each.
    most_steps: u64,
}

impl Turns {
    /// No turn.
    pub const NONE: Turns = Turns {
        count: 0,
        most_steps: 0,
    };

    /// Returns the turns for a limit of nodes.
    pub fn within(nodes: u32) -> Turns {
        Turns {
            count: (nodes / NODES_OF_A_TURN).saturating_add(FIRST_TURNS),
            most_steps: u64::from(nodes)
                .saturating_mul(STEPS_OF_A_NODE)
                .max(LEAST_STEPS),
        }
    }
}

/// A timetable that breaks no hard rule.
#[derive(Drop)]
pub struct Best {
    pub table: Timetable,
    /// The cost of the timetable, in cost points.
    pub cost: u64,
}

/// Returns the timetable with its cost, if it breaks no hard rule and fits the root.
fn if_feasible(instance: &Instance<'_>, root: &[Fact], table: Timetable) -> Option<Best>
    requires { IsTimetable instance.now table }
    ensures costed { IfSome result (λ b. IsCosted instance.now b) }
    ensures fits { FitsRoot instance.now root.now result }
    ensures table { IfSome result (λ b. b.table ≡ table) }
    ensures none { IsNone result → IsFeasible instance.now table → ¬ Fits instance.now table root.now }
    ensures no_dearer { (t : List Cell) → IsNoWorse instance.now t table → IsFeasible instance.now t → Fits instance.now table root.now
        → IsNoDearer instance.now (table_of result) t }
{
    let counts = score(instance, &table);
    if !counts.feasible() || !is_fitting(instance, &table, root) {
        return None;
    }
    Some(Best {
        table,
        cost: counts.cost(),
    })
}

/// Returns the number of a timetable's entries times the number of cells of a room and a period.
fn size_of(instance: &Instance<'_>, table: &Timetable) -> u64 {
    let periods = u64::from(instance.days()).saturating_mul(u64::from(instance.periods()));
    let cells = periods.saturating_mul(u64::from(instance.rooms()));
    (table.len() as u64).saturating_mul(cells)
}

/// Returns whether a timetable breaks no hard rule and costs at most a goal.
fn is_at_goal(instance: &Instance<'_>, table: &Timetable, goal: u64) -> bool
    requires { IsTimetable instance.now table.now }
{
    let counts = score(instance, table);
    counts.feasible() && counts.cost() <= goal
}

/// Returns the steps of a turn for a timetable of this size.
fn steps_of(turn: u32, size: u64) -> u64 {
    if turn >= FIRST_TURNS {
        size.saturating_mul(LONG_STEPS_OF_A_CELL)
            .clamp(LEAST_STEPS, MOST_LAST_STEPS)
    } else if turn % 2 == 0 {
        size.saturating_mul(STEPS_OF_A_CELL)
            .clamp(LEAST_STEPS, MOST_STEPS)
    } else {
        size.saturating_mul(LONG_STEPS_OF_A_CELL)
            .clamp(LEAST_STEPS, MOST_LONG_STEPS)
    }
}

/// Returns whether a timetable breaks fewer hard rules than another one, or as many at a lower cost.
fn is_cheaper(instance: &Instance<'_>, one: &Timetable, other: &Timetable) -> bool
    requires one { IsTimetable instance.now one.now }
    requires other { IsTimetable instance.now other.now }
{
    let first = score(instance, one);
    let second = score(instance, other);
    first.hard() < second.hard() || (first.hard() == second.hard() && first.cost() < second.cost())
}

/// Returns whether a timetable that was found is to replace the best one: it fits the root, and the best one doesn't or is worse.
fn is_better(instance: &Instance<'_>, root: &[Fact], found: &Timetable, best: &Timetable) -> bool
    requires found { IsTimetable instance.now found.now }
    requires best { IsTimetable instance.now best.now }
    ensures { result ≡ true → Fits instance.now found.now root.now }
{
    is_fitting(instance, found, root)
        && (!is_fitting(instance, best, root) || is_cheaper(instance, found, best))
}

/// Improves a timetable in turns, each from the start, until one reaches the goal or the search is to end; returns the best of those that fit the
/// root, or else the timetable itself.
fn improve_to<W: Watch>(
    alloc: Global,
    instance: &Instance<'_>,
    root: &[Fact],
    table: Timetable,
    improvement: Improvement,
    watch: &mut W,
) -> Result<Timetable, AllocError>
    requires { IsTimetable instance.now table }
    ensures no_worse { IfOk result (IsNoWorse instance.now table) }
    ensures fits { Fits instance.now table root.now → IfOk result (λ t. Fits instance.now t root.now) }
{
    let Improvement { seed, goal, turns } = improvement;
    let size = size_of(instance, &table);
    let start = table.copy()?;
    let mut best = table;
    for turn in 0..turns.count {
        if watch.is_over() || is_at_goal(instance, &best, goal) {
            break;
        }
        let turn_seed = seed.wrapping_add(u64::from(turn));
        let found = improve(
            alloc,
            instance,
            start.copy()?,
            turn_seed,
            steps_of(turn, size).min(turns.most_steps),
            watch,
        )?;
        if is_better(instance, root, &found, &best) {
            best = found;
        }
    }
    Ok(best)
}

/// Returns the result of the improvement of a timetable, if it breaks no hard rule and fits the root.
fn best_from<W: Watch>(
    alloc: Global,
    instance: &Instance<'_>,
    root: &[Fact],
    table: Timetable,
    improvement: Improvement,
    watch: &mut W,
) -> Result<Option<Best>, AllocError>
    requires { IsTimetable instance.now table }
    ensures best { IfOk result (IsBestSoFar instance.now) }
    ensures fits { IfOk result (FitsRoot instance.now root.now) }
    ensures kept { IfOk result (λ best. Keeps instance.now root.now (table_of best) table) }
{
    let improved = improve_to(alloc, instance, root, table, improvement, watch)?;
    Ok(if_feasible(instance, root, improved))
}

/// Returns the timetable that a search begins with: the given one, or else the result of a descent from a constructed one, improved in this many turns
/// or until it costs at most a goal or the search is to end, if it breaks no hard rule and fits the root. The same seed gives the same timetable,
/// unless the watch ends the search.
pub fn first_best<W: Watch>(
    alloc: Global,
    instance: &Instance<'_>,
    root: &[Fact],
    given: Option<Timetable>,
    improvement: Improvement,
    watch: &mut W,
) -> Result<Option<Best>, AllocError>
    requires { IfSome given (IsTimetable instance.now) }
    ensures best { IfOk result (IsBestSoFar instance.now) }
    ensures fits { IfOk result (FitsRoot instance.now root.now) }
    ensures begun { IfOk result (λ best. BeginsWell instance.now root.now given (table_of best)) }
{
    match given {
        Some(table) => best_from(alloc, instance, root, table, improvement, watch),
        None => {
            let table = construct(alloc, instance, improvement.seed)?;
            let descent = descend(alloc, instance, table, FIRST_STEPS)?;
            best_from(alloc, instance, root, descent.table, improvement, watch)
        }
    }
}

/// Returns the bound that closes a node: no timetable costs less than the best, or no timetable exists.
pub fn bound_of(best: &Option<Best>) -> Bound
    ensures { (p : Problem) → IsBestSoFar p best.now → result ≡ final_bound p (table_of best.now) }
{
    match best {
        None => Bound::Nothing,
        Some(kept) => Bound::AtLeast(kept.cost),
    }
}
