//! The state of a search: a tree that grows, and the best timetable.

ghost use Rattle.std.specs.Prelude.{◌≡◌, ◌<◌, ◌+◌, [], ◌∷◌, ◌++◌, List, length, IfOk, OnOk, IfSome, IsNone, true, false, slice_set, vec_len};
ghost use Rattle.std.specs.List.{list_any};
ghost use Rattle.tt_instance.specs.Problem.{Problem};
ghost use Rattle.tt_path.specs.declared.facts.Fact.{Fact};
ghost use Rattle.tt_leaf_find.specs.Found.{ArePatterns};
ghost use Rattle.tt_branch.specs.Inner.Growing.{IsOpenAt, HasMark, is_open, opened_in};
ghost use Rattle.tt_branch.specs.Inner.BestSoFar.{IsBestSoFar, FitsRoot};
ghost use Rattle.tt_branch.specs.Inner.Links.{link_of};
ghost use Rattle.tt_branch.specs.Inner.State.{IsUnderWay, IsSplitAt};

use crate::best::Best;
use crate::links::Link;
use crate::tree_node::{ChildGains, NodeState, TreeNode};
use std::alloc::{AllocError, Global};
use tt_path::{Fact, Pattern};

/// A tree that grows, in preorder, the links to the facts of its nodes, and the best timetable so far.
#[derive(Drop)]
pub struct Search {
    pub tree_nodes: Vec<TreeNode>,
    pub links: Vec<Link>,
    pub best: Option<Best>,
}

impl Search {
    /// Creates a search with only the root, which waits.
    pub fn new(alloc: Global, best: Option<Best>) -> Result<Search, AllocError>
        ensures under_way { IfOk result (λ s. (p : Problem) (root : List Fact) → ArePatterns p root → IsBestSoFar p best
            → FitsRoot p root best → IsUnderWay p root s) }
        ensures best { IfOk result (λ s. s.best ≡ best) }
        ensures alone { IfOk result (λ s. length s.tree_nodes.items ≡ 1) }
        ensures unopened { IfOk result (λ s. opened_in s.tree_nodes.items ≡ 0) }
        ensures waiting { IfOk result (λ s. HasMark s.tree_nodes.items 0 NodeState.Unopened) }
    {
        let mut tree_nodes = Vec::new(alloc);
        tree_nodes.push(TreeNode {
            mark: NodeState::Unopened,
            link: 0,
            key: 0,
            rises: ChildGains::NONE,
        })?;
        Ok(Search {
            tree_nodes,
            links: Vec::new(alloc),
            best,
        })
    }
}

/// Returns whether a node is open and either no open one was met before or its key is below the least.
fn is_next(tree_node: &TreeNode, first: bool, least: u64) -> bool
    ensures open { result ≡ true → is_open tree_node.now.mark ≡ true }
    ensures first { first ≡ true → result ≡ false → is_open tree_node.now.mark ≡ false }
{
    tree_node.is_open() && (first || tree_node.key < least)
}

/// Returns the open node with the least key, the first of several.
pub fn next_open(tree_nodes: &[TreeNode]) -> Option<usize>
    ensures open { IfSome result (λ place. IsOpenAt tree_nodes.now place) }
    ensures none { IsNone result → list_any (λ e. is_open e.mark) tree_nodes.now ≡ false }
{
    let mut found = None;
    let mut least = u64::MAX;
    for (place, tree_node) in tree_nodes.iter().enumerate() {
        if is_next(tree_node, found.is_none(), least) {
            found = Some(place);
            least = tree_node.key;
        }
    }
    found
}

/// Adds the link of a child; returns its place.
fn push_link(
    links: &mut Vec<Link>,
    parent: usize,
    pattern: Pattern,
    holds: bool,
) -> Result<usize, AllocError>
    ensures links { OnOk result (links.new.items ≡ links.old.items ++ link_of parent pattern holds ∷ []) }
    ensures place { IfOk result (λ place. place ≡ length links.old.items + 1) }
{
    links.push(Link {
        parent,
        fact: Fact { pattern, holds },
    })?;
    Ok(links.len())
}

/// Replaces the node at a place.
pub fn put(tree_nodes: &mut Vec<TreeNode>, place: usize, tree_node: TreeNode)
    requires { place < vec_len tree_nodes.old }
    ensures { tree_nodes.new.items ≡ slice_set tree_nodes.old.items place tree_node }
{
    tree_nodes[place] = tree_node;
}

/// Splits an opened node by its pattern: its children follow it, and wait.
pub fn split(search: &mut Search, place: usize, pattern: Pattern) -> Result<(), AllocError>
    requires { HasMark search.old.tree_nodes.items place (NodeState.Opened pattern) }
    ensures { OnOk result (IsSplitAt place pattern search.old search.new) }
{
    let TreeNode {
        link,
        key,
        rises,
        ..
    } = &search.tree_nodes[place];
    let (link, key, rises) = (*link, *key, *rises);
    let yes = push_link(&mut search.links, link, pattern, true)?;
    let no = push_link(&mut search.links, link, pattern, false)?;
    let second = TreeNode::waiting(no, key.saturating_add(rises.no));
    let first = TreeNode::waiting(yes, key.saturating_add(rises.yes));
    search.tree_nodes.insert(place + 1, second)?;
    search.tree_nodes.insert(place + 1, first)?;
    put(
        &mut search.tree_nodes,
        place,
        TreeNode {
            mark: NodeState::Split(pattern),
            link,
            key,
            rises,
        },
    );
    Ok(())
}
