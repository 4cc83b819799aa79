//! The search for a best timetable and a proof of a lower bound.

ghost use Rattle.std.specs.Prelude.{◌≡◌, ◌≤◌, ◌+◌, List, Option, length, IfOk, IfSome};
ghost use Rattle.tt_instance.specs.Problem.{Problem};
ghost use Rattle.tt_instance.specs.declared.cell.Cell.{Cell};
ghost use Rattle.tt_table.specs.Table.{IsTimetable};
ghost use Rattle.tt_path.specs.declared.path.TheConstants.{MAX_FACTS};
ghost use Rattle.tt_leaf_find.specs.Found.{ArePatterns};
ghost use Rattle.tt_branch.specs.Inner.BestSoFar.{IsBestSoFar, FitsRoot, table_of};
ghost use Rattle.tt_branch.specs.Inner.Links.{IsRooted};
ghost use Rattle.tt_branch.specs.Outcomes.{IsOutcome, IsOutcomeUntil, BeginsWell, final_bound, root_limit};
ghost use Rattle.tt_branch.specs.Proofs.{shown_bound};
ghost use Rattle.tt_branch.specs.Inner.State.{IsUnderWay, EndsAt};
ghost use Rattle.tt_branch.specs.declared.limit.TheConstants.{MAX_OPENED};

use crate::best::{Best, Turns, bound_of, first_best};
use crate::improvement::Improvement;
use crate::nodes::{Written, write_nodes};
use crate::rounds::{Ending, grow};
use crate::search::Search;
use crate::visit::{best_worth, open_at};
use std::alloc::{AllocError, Global};
use tt_instance::Instance;
use tt_leaf::Bound;
use tt_path::{Fact, Path, PathFault};
use tt_path_trail::TrailPath;
use tt_proof_check::start_path;
use tt_proof_read::Node;
use tt_reason::find_reason;
use tt_table::Timetable;
use tt_watch::Watch;

/// What a search begins with.
#[derive(Drop)]
pub struct Start<'r> {
    /// The facts that each timetable is to fit; without any, each timetable counts.
    pub root: &'r [Fact],
    /// The first timetable, which may break hard rules and may not fit the root; if there is none, one is constructed.
    pub table: Option<Timetable>,
}

/// The result of a search.
#[derive(Drop)]
pub struct Outcome {
    /// The best timetable that breaks no hard rule and fits the root.
    pub best: Option<Timetable>,
    /// The bound that the proof shows for every timetable that breaks no hard rule and fits the root.
    pub bound: Bound,
    /// The nodes of the proof, in preorder.
    pub proof: Vec<Node>,
    /// Whether each node is closed, so that the best timetable is optimal among those that fit the root.
    pub finished: bool,
}

/// Returns the bound that the proof of a search shows: if it is finished, that no timetable is better than the best; otherwise the least
/// value of a Cost leaf.
fn shown(best: &Option<Best>, least: Option<u64>, finished: bool) -> Bound
    ensures { (p : Problem) → IsBestSoFar p best.now → result ≡ shown_bound (final_bound p (table_of best.now)) least finished }
{
    if finished {
        return bound_of(best);
    }
    Bound::AtLeast(least.unwrap_or(0))
}

/// Returns the outcome of a search that has ended.
fn conclude<'i, P: Path<'i>>(
    alloc: Global,
    path: &mut P,
    root: &[Fact],
    search: Search,
    ending: Ending,
) -> Result<Outcome, AllocError>
    requires rooted { IsRooted root.now (P.facts path.old) }
    requires under_way { IsUnderWay (P.problem path.old) root.now search }
    requires ends { EndsAt ending.opened search.tree_nodes.items ending.finished }
    requires at_most { length root.now + ending.opened ≤ MAX_FACTS }
    ensures { IfOk result (λ o. (given : Option (List Cell)) → BeginsWell (P.problem path.old) root.now given (table_of search.best)
        → IsOutcome (P.problem path.old) root.now given ending.opened o.best o.bound o.proof.items o.finished) }
{
    // Brings the instance's limits into the proof.
    prove!(path.instance().days() <= 64);
    let Search {
        tree_nodes,
        links,
        best,
    } = search;
    let Written { nodes, least } = write_nodes(
        alloc,
        path,
        root,
        links.as_slice(),
        tree_nodes.as_slice(),
        !ending.finished,
    )?;
    let bound = shown(&best, least, ending.finished);
    Ok(Outcome {
        best: table_in(best),
        bound,
        proof: nodes,
        finished: ending.finished,
    })
}

fn table_in(best: Option<Best>) -> Option<Timetable>
    ensures { result ≡ table_of best }
{
    match best {
        Some(kept) => Some(kept.table),
        None => None,
    }
}

/// Searches over a path of the root's facts, from a first best timetable.
fn solve_over<'i, P: Path<'i>, W: Watch>(
    alloc: Global,
    path: &mut P,
    root: &[Fact],
    best: Option<Best>,
    limit: u32,
    watch: &mut W,
) -> Result<Outcome, AllocError>
    requires rooted { IsRooted root.now (P.facts path.old) }
    requires patterns { ArePatterns (P.problem path.old) root.now }
    requires best { IsBestSoFar (P.problem path.old) best }
    requires fits { FitsRoot (P.problem path.old) root.now best }
    requires positive { 1 ≤ limit }
    requires at_most { length root.now + limit ≤ MAX_FACTS }
    ensures { IfOk result (λ o. (given : Option (List Cell)) → BeginsWell (P.problem path.old) root.now given (table_of best)
        → IsOutcomeUntil (P.problem path.old) root.now given limit (W.has_ended watch.new) o.best o.bound o.proof.items o.finished) }
{
    let mut search = Search::new(alloc, best)?;
    open_at(alloc, path, root, &mut search, 0)?;
    let ending = grow(alloc, path, root, &mut search, limit, watch)?;
    conclude(alloc, path, root, search, ending)
}

/// Returns the turns of the improvement: none if a timetable is given for a root, since their steps know nothing of its facts, or if there is a plain
/// reason why no feasible timetable exists.
fn turns_in(
    alloc: Global,
    instance: &Instance<'_>,
    start: &Start<'_>,
    nodes: u32,
) -> Result<Turns, AllocError> {
    if start.table.is_some() && !start.root.is_empty() {
        return Ok(Turns::NONE);
    }
    let reason = find_reason(alloc, instance)?;
    Ok(if reason.is_some() {
        Turns::NONE
    } else {
        Turns::within(nodes)
    })
}

/// Creates the path of a root.
fn path_of<'p, 'i>(
    alloc: Global,
    instance: &'p Instance<'i>,
    root: &[Fact],
) -> Result<TrailPath<'p, 'i>, AllocError>
    requires { length root.now ≤ MAX_FACTS }
    ensures problem { IfOk result (λ s. s.problem ≡ instance.now) }
    ensures facts { IfOk result (λ s. s.facts ≡ root.now) }
{
    match start_path(alloc, instance, root) {
        Ok(path) => Ok(path),
        Err(PathFault::OutOfMemory) => Err(AllocError),
        Err(PathFault::TooDeep) => unreachable!(),
    }
}

/// Searches for a best timetable by a tree below a root of facts. Returns the best timetable that it found and a proof of a lower bound for those that
/// fit the root, of at most `nodes` nodes if each is closed, and of fewer than twice as many otherwise; if each is closed, the cost and the bound are
/// equal, or no timetable exists that fits and breaks no hard rule. If a timetable is given that fits and breaks no hard rule, the best one is at most as
/// expensive. If the watch ends the search, the result is that of a search of fewer nodes. It makes no promise about which nodes are opened.
pub fn solve<W: Watch>(
    alloc: Global,
    instance: &Instance<'_>,
    start: Start<'_>,
    nodes: u32,
    seed: u64,
    watch: &mut W,
) -> Result<Outcome, AllocError>
    requires patterns { ArePatterns instance.now start.root.now }
    requires table { IfSome start.table (IsTimetable instance.now) }
    requires positive { 1 ≤ nodes }
    requires at_most { nodes ≤ MAX_OPENED }
    requires few { length start.root.now ≤ root_limit nodes }
    ensures { IfOk result (λ o. IsOutcomeUntil instance.now start.entry.root.now start.entry.table nodes (W.has_ended watch.new) o.best o.bound o.proof.items
        o.finished) }
{
    let mut path = path_of(alloc, instance, start.root)?;
    let improvement = Improvement {
        seed,
        goal: best_worth(alloc, &path)?,
        turns: turns_in(alloc, instance, &start, nodes)?,
    };
    let Start { root, table } = start;
    let best = first_best(alloc, instance, root, table, improvement, watch)?;
    solve_over(alloc, &mut path, root, best, nodes, watch)
}
