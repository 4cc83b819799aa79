//! Opening nodes.

ghost use Rattle.std.specs.Prelude.{◌≡◌, ◌<◌, ◌≤◌, ◌+◌, ◌*◌, length, true, IfOk, OnOk};
ghost use Rattle.tt_instance.specs.Problem.{Problem};
ghost use Rattle.tt_path.specs.declared.path.TheConstants.{MAX_FACTS};
ghost use Rattle.tt_leaf_find.specs.Found.{ArePatterns};
ghost use Rattle.tt_leaf_find.specs.Pinned.{IsPinnedDown, IsOpen};
ghost use Rattle.tt_branch.specs.Inner.Growing.{IsKnown, IsSingle, HasMark, was_opened, opened_in};
ghost use Rattle.tt_branch.specs.Inner.BestSoFar.{IsBestSoFar, table_of, Advances};
ghost use Rattle.tt_branch.specs.Inner.Links.{path_at, AreLinks, IsRooted};
ghost use Rattle.tt_branch.specs.Outcomes.{final_bound};
ghost use Rattle.tt_branch.specs.Inner.State.{IsUnderWay};
ghost use Rattle.tt_branch.specs.declared.limit.TheConstants.{MAX_TREE};

use crate::best::{Best, bound_of};
use crate::links::{Link, facts_to};
use crate::live::live_table;
use crate::moves::move_to;
use crate::search::{Search, put};
use crate::tree_node::{ChildGains, NodeState, TreeNode};
use std::alloc::{AllocError, Global};
use tt_branch_split::choose_split;
use tt_leaf::Leaf;
use tt_leaf_find::{best_claims, find_leaf};
use tt_leaf_rules::leaf_value;
use tt_path::{Fact, Path, PathFault, Pattern};
use tt_rules::score;

/// Replaces the facts of a path by those of a node; those of the root stay.
pub fn go_to<'i, P: Path<'i>>(
    alloc: Global,
    path: &mut P,
    root: &[Fact],
    links: &[Link],
    place: usize,
) -> Result<(), AllocError>
    requires rooted { IsRooted root.now (P.facts path.old) }
    requires links { AreLinks links.now }
    requires place { place ≤ length links.now }
    requires depth { length (path_at root.now links.now place) ≤ MAX_FACTS }
    ensures there { OnOk result (P.facts path.new ≡ path_at root.now links.now place) }
    ensures rooted { OnOk result (IsRooted root.now (P.facts path.new)) }
    ensures unchanged { P.problem path.new ≡ P.problem path.old }
{
    let facts = facts_to(alloc, links, place)?;
    match move_to(path, root.len() as u32, facts.as_slice()) {
        Ok(()) => Ok(()),
        Err(PathFault::OutOfMemory) => Err(AllocError),
        Err(PathFault::TooDeep) => unreachable!(),
    }
}

/// Returns the value of the best claims on a path, in cost points.
pub fn best_worth<'i, P: Path<'i>>(alloc: Global, path: &P) -> Result<u64, AllocError> {
    let leaf = best_claims(alloc, path)?;
    Ok(leaf_value(path, &leaf))
}

/// Stores the live cells of a path as the best timetable; returns the leaf of the best claims, which then closes the node.
fn take_live<'i, P: Path<'i>>(
    alloc: Global,
    path: &P,
    best: &mut Option<Best>,
) -> Result<Leaf, AllocError>
    requires best { IsBestSoFar (P.problem path.now) best.old }
    requires pinned { IsPinnedDown (P.problem path.now) (P.facts path.now) }
    requires unclosed { IsOpen (P.problem path.now) (P.facts path.now) (final_bound (P.problem path.now) (table_of best.old)) }
    ensures known { IfOk result (λ leaf. IsKnown (P.problem path.now) (table_of best.new) (P.facts path.now) (NodeState.Closed leaf)) }
    ensures better { OnOk result (Advances (P.problem path.now) (P.facts path.now) best.old best.new) }
{
    // Brings the instance's limits into the proof.
    prove!(path.instance().days() <= 64);
    let table = live_table(alloc, path)?;
    let leaf = best_claims(alloc, path)?;
    let cost = score(path.instance(), &table).cost();
    *best = Some(Best { table, cost });
    Ok(leaf)
}

/// The result of opening a node.
#[derive(Drop)]
struct Opening {
    mark: NodeState,
    key: u64,
}

/// Creates the result of a node that a leaf closes.
fn closed(leaf: Leaf) -> Opening
    ensures { result.mark ≡ NodeState.Closed leaf }
{
    Opening {
        mark: NodeState::Closed(leaf),
        key: 0,
    }
}

/// Opens the node of a path: returns a leaf that closes it, or the pattern by which it will be split.
fn open<'i, P: Path<'i>>(
    alloc: Global,
    path: &P,
    best: &mut Option<Best>,
) -> Result<Opening, AllocError>
    requires best { IsBestSoFar (P.problem path.now) best.old }
    requires patterns { ArePatterns (P.problem path.now) (P.facts path.now) }
    ensures known { IfOk result (λ o. IsKnown (P.problem path.now) (table_of best.new) (P.facts path.now) o.mark) }
    ensures opened { IfOk result (λ o. was_opened o.mark ≡ true) }
    ensures single { IfOk result (λ o. IsSingle o.mark) }
    ensures better { OnOk result (Advances (P.problem path.now) (P.facts path.now) best.old best.new) }
{
    let bound = bound_of(best);
    if let Some(leaf) = find_leaf(alloc, path, bound)? {
        return Ok(closed(leaf));
    }
    if let Some(pattern) = choose_split(alloc, path)? {
        let key = best_worth(alloc, path)?;
        return Ok(Opening {
            mark: NodeState::Opened(pattern),
            key,
        });
    }
    let leaf = take_live(alloc, path, best)?;
    Ok(closed(leaf))
}

/// Returns by how much the value of the best claims after another fact exceeds this many points.
fn rise<'i, P: Path<'i>>(
    alloc: Global,
    path: &mut P,
    fact: Fact,
    points: u64,
) -> Result<u64, AllocError>
    ensures facts { OnOk result (P.facts path.new ≡ P.facts path.old) }
    ensures unchanged { P.problem path.new ≡ P.problem path.old }
{
    match path.push(fact) {
        Ok(()) => {}
        Err(PathFault::TooDeep) => return Ok(0),
        Err(PathFault::OutOfMemory) => return Err(AllocError),
    }
    let worth = best_worth(alloc, path)?;
    let _ = path.pop();
    Ok(worth.saturating_sub(points))
}

/// Returns by how much the values of a node's children will exceed its own, if it will be split.
fn rises_of<'i, P: Path<'i>>(
    alloc: Global,
    path: &mut P,
    split: Option<Pattern>,
    points: u64,
) -> Result<ChildGains, AllocError>
    ensures facts { OnOk result (P.facts path.new ≡ P.facts path.old) }
    ensures unchanged { P.problem path.new ≡ P.problem path.old }
{
    let Some(pattern) = split else {
        return Ok(ChildGains::NONE);
    };
    let first = Fact {
        pattern,
        holds: true,
    };
    let second = Fact {
        pattern,
        holds: false,
    };
    let yes = rise(alloc, path, first, points)?;
    let no = rise(alloc, path, second, points)?;
    Ok(ChildGains { yes, no })
}

/// Opens a node that waits.
pub fn open_at<'i, P: Path<'i>>(
    alloc: Global,
    path: &mut P,
    root: &[Fact],
    search: &mut Search,
    place: usize,
) -> Result<(), AllocError>
    requires rooted { IsRooted root.now (P.facts path.old) }
    requires under_way { IsUnderWay (P.problem path.old) root.now search.old }
    requires waiting { HasMark search.old.tree_nodes.items place NodeState.Unopened }
    requires at_most { 2 * length root.now + length search.old.tree_nodes.items ≤ MAX_TREE + 2 }
    ensures rooted { OnOk result (IsRooted root.now (P.facts path.new)) }
    ensures under_way { OnOk result (IsUnderWay (P.problem path.old) root.now search.new) }
    ensures better { OnOk result (Advances (P.problem path.old) root.now search.old.best search.new.best) }
    ensures opened { OnOk result (opened_in search.new.tree_nodes.items ≡ opened_in search.old.tree_nodes.items + 1) }
    ensures many { OnOk result (length search.new.tree_nodes.items ≡ length search.old.tree_nodes.items) }
    ensures unchanged { P.problem path.new ≡ P.problem path.old }
{
    let link = search.tree_nodes[place].link;
    go_to(alloc, path, root, search.links.as_slice(), link)?;
    let Opening { mark, key } = open(alloc, path, &mut search.best)?;
    let rises = rises_of(alloc, path, mark.pattern(), key)?;
    let tree_node = TreeNode {
        mark,
        link,
        key,
        rises,
    };
    put(&mut search.tree_nodes, place, tree_node);
    Ok(())
}
