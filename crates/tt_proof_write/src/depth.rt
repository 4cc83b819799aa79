//! The depth of the nodes of a tree.

ghost use Rattle.std.specs.Prelude.{◌↔◌, IsTrue};
ghost use Rattle.tt_proof_read.specs.Trees.{IsPreorder};
ghost use Rattle.tt_proof_write.specs.Within.{AreShallow};

use arrayvec::ArrayVec;
use tt_path::MAX_FACTS;
use tt_proof_read::Node;

/// The maximum number of second children that can be pending at once.
const MAX_PENDING: usize = MAX_FACTS as usize;

/// Checks that no node of a tree is below more splits than a file may have.
pub fn is_shallow(nodes: &[Node]) -> bool
    requires { IsPreorder nodes.now }
    ensures { IsTrue result ↔ AreShallow nodes.now }
{
    let mut depth: u32 = 0;
    // The depths of the second children that are not read yet.
    let mut pending: ArrayVec<u32, MAX_PENDING> = ArrayVec::new();
    for node in nodes {
        match node {
            Node::Split(_) => {
                // Its children would be too deep.
                if depth == MAX_FACTS {
                    return false;
                }
                depth += 1;
                pending.push(depth);
            }
            Node::Leaf(_) => depth = pending.pop().unwrap_or(0),
        }
    }
    true
}
