//! The proof made of a tree.

ghost use Rattle.std.specs.Prelude.{◌≡◌, ◌≤◌, length, true, IfOk, OnOk, All, IsTrue};
ghost use Rattle.tt_path.specs.Live.{least};
ghost use Rattle.tt_proof_check.specs.Nodes.{IsNodeOf};
ghost use Rattle.tt_branch.specs.Inner.Growing.{node_at, worth_at, nodes_of, worths_of};
ghost use Rattle.tt_branch.specs.Inner.Links.{path_at, AreLinks, IsRooted};
ghost use Rattle.tt_branch.specs.Proofs.{node_worth};
ghost use Rattle.tt_branch.specs.Inner.Steps.{lower};
ghost use Rattle.tt_branch.specs.Inner.Written.{IsReached, IsWritable, IsOnceNode};

use crate::copying::copy_leaf;
use crate::links::Link;
use crate::tree_node::{NodeState, TreeNode};
use crate::visit::go_to;
use std::alloc::{AllocError, Global};
use tt_leaf::Leaf;
use tt_leaf_find::best_claims;
use tt_leaf_rules::leaf_value;
use tt_path::{Fact, Path};
use tt_proof_read::Node;

/// The nodes of a proof in preorder, and the least value of a Cost leaf, if it was asked for.
#[derive(Drop)]
pub struct Written {
    pub nodes: Vec<Node>,
    pub least: Option<u64>,
}

/// Returns the node of the proof for a node of the tree; an open one is closed by the best claims.
fn node_for<'i, P: Path<'i>>(
    alloc: Global,
    path: &mut P,
    root: &[Fact],
    links: &[Link],
    tree_node: &TreeNode,
) -> Result<Node, AllocError>
    requires rooted { IsRooted root.now (P.facts path.old) }
    requires links { AreLinks links.now }
    requires reached { IsReached root.now links.now tree_node.now.link }
    ensures node { IfOk result (λ n. n ≡ node_at (P.problem path.old) root.now links.now tree_node.now) }
    ensures rooted { OnOk result (IsRooted root.now (P.facts path.new)) }
    ensures unchanged { P.problem path.new ≡ P.problem path.old }
{
    match &tree_node.mark {
        NodeState::Split(pattern) => Ok(Node::Split(*pattern)),
        NodeState::Closed(leaf) => Ok(Node::Leaf(copy_leaf(alloc, leaf)?)),
        NodeState::Opened(_) | NodeState::Unopened => {
            go_to(alloc, path, root, links, tree_node.link)?;
            Ok(Node::Leaf(best_claims(alloc, path)?))
        }
    }
}

/// Returns the value of a node on its path, if it is a Cost leaf.
fn worth_of<'i, P: Path<'i>>(
    alloc: Global,
    path: &mut P,
    root: &[Fact],
    links: &[Link],
    link: usize,
    node: &Node,
) -> Result<Option<u64>, AllocError>
    requires rooted { IsRooted root.now (P.facts path.old) }
    requires links { AreLinks links.now }
    requires reached { IsReached root.now links.now link }
    requires numbers { IsNodeOf (P.problem path.old) node.now }
    requires once { IsOnceNode node.now }
    ensures worth { IfOk result (λ w. w ≡ node_worth (P.problem path.old) (path_at root.now links.now link) node.now) }
    ensures rooted { OnOk result (IsRooted root.now (P.facts path.new)) }
    ensures unchanged { P.problem path.new ≡ P.problem path.old }
{
    match node {
        Node::Leaf(leaf) => {
            if !matches!(leaf, Leaf::Cost(_)) {
                return Ok(None);
            }
            go_to(alloc, path, root, links, link)?;
            Ok(Some(leaf_value(path, leaf)))
        }
        Node::Split(_) => Ok(None),
    }
}

fn lower(worth: Option<u64>, least: Option<u64>) -> Option<u64>
    ensures { result ≡ lower worth least }
{
    match (worth, least) {
        (None, _) => least,
        (Some(n), None) => Some(n),
        (Some(n), Some(m)) => Some(n.min(m)),
    }
}

/// Returns the proof made of the tree's nodes, and the least value of its Cost leaves, if that is asked for.
pub fn write_nodes<'i, P: Path<'i>>(
    alloc: Global,
    path: &mut P,
    root: &[Fact],
    links: &[Link],
    tree_nodes: &[TreeNode],
    valued: bool,
) -> Result<Written, AllocError>
    requires rooted { IsRooted root.now (P.facts path.old) }
    requires links { AreLinks links.now }
    requires each { All (IsWritable (P.problem path.old) root.now links.now) tree_nodes.now }
    ensures nodes { IfOk result (λ w. w.nodes.items ≡ nodes_of (P.problem path.old) root.now links.now tree_nodes.now) }
    ensures least { IfOk result (λ w. valued ≡ true → w.least ≡ least (worths_of (P.problem path.old) root.now links.now tree_nodes.now)) }
    ensures rooted { OnOk result (IsRooted root.now (P.facts path.new)) }
    ensures unchanged { P.problem path.new ≡ P.problem path.old }
{
    let mut nodes = Vec::new(alloc);
    let mut least = None;
    let mut left = tree_nodes.len();
    while left > 0 {
        left -= 1;
        let tree_node = &tree_nodes[left];
        let node = node_for(alloc, path, root, links, tree_node)?;
        if valued {
            let worth = worth_of(alloc, path, root, links, tree_node.link, &node)?;
            least = lower(worth, least);
        }
        nodes.push(node)?;
    }
    nodes.as_mut_slice().reverse();
    Ok(Written { nodes, least })
}
