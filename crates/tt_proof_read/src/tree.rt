//! Whether nodes form a tree.

ghost use Rattle.std.specs.Prelude.{◌↔◌, IsTrue};
ghost use Rattle.tt_proof_read.specs.Trees.{IsPreorder};

use crate::node::Node;

/// Returns whether nodes are those of one tree, in preorder.
pub fn is_tree(nodes: &[Node]) -> bool
    ensures { IsTrue result ↔ IsPreorder nodes.now }
{
    let mut places: u64 = 1;
    for node in nodes {
        if places == 0 {
            return false;
        }
        match node {
            Node::Split(_) => places += 1,
            Node::Leaf(_) => places -= 1,
        }
    }
    places == 0
}
