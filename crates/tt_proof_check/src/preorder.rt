//! Lists of nodes: checks that they are a tree that derives a bound.

ghost use Rattle.std.specs.Prelude.{◌≡◌, [], false, Err, IsOkUnless, OnOk, All};
ghost use Rattle.tt_text.specs.Stops.{IfFault, is_read_failed};
ghost use Rattle.tt_proof_check.specs.Derives.{Proves, HoldsOfAll};
ghost use Rattle.tt_proof_read.specs.Trees.{IsPreorder};
ghost use Rattle.tt_proof_check.specs.Nodes.{IsNodeOf};
ghost use Rattle.tt_proof_check.specs.Explains.{Explains};

use crate::fault::NodesFault;
use crate::walk::{NodeStop, check_node};
use std::alloc::Global;
use tt_instance::Instance;
use tt_leaf::Bound;
use tt_path::Path;
use tt_path_trail::TrailPath;
use tt_proof_read::{Node, is_tree};
use tt_text::Stop;

/// Checks the nodes of a tree, each on its path. The facts of the path are those of the root.
fn check_each<'i, P: Path<'i>>(
    path: &mut P,
    bound: Bound,
    nodes: &[Node],
) -> Result<(), Stop<NodesFault>>
    requires tree { IsPreorder nodes.now }
    requires nodes { All (IsNodeOf (P.problem path.old)) nodes.now }
    ensures derived { OnOk result (Proves (P.problem path.old) (P.facts path.old) bound nodes.now) }
    ensures fault { IfFault result (λ f. Explains (P.problem path.old) (P.facts path.old) bound nodes.now f) }
    ensures unread { is_read_failed result ≡ false }
{
    let root = path.depth();
    for (i, node) in nodes.iter().enumerate() {
        match check_node(path, root, bound, node) {
            Ok(()) => {}
            Err(NodeStop::Rule(fault)) => return Err(Stop::Fault(NodesFault::Rule(i, fault))),
            Err(NodeStop::TooDeep) => return Err(Stop::Fault(NodesFault::TooDeep(i + 1))),
            Err(NodeStop::OutOfMemory) => return Err(Stop::OutOfMemory),
        }
    }
    Ok(())
}

/// Checks that the nodes prove a bound: they are one tree in preorder, and each leaf closes its node on its path.
pub fn check_nodes(
    alloc: Global,
    instance: &Instance<'_>,
    bound: Bound,
    nodes: &[Node],
) -> Result<(), Stop<NodesFault>>
    requires { All (IsNodeOf instance.now) nodes.now }

    ensures derived { OnOk result (Proves instance.now [] bound nodes.now) }
    ensures only { Proves instance.now [] bound nodes.now → IsOkUnless result Stop.OutOfMemory }
    ensures holds { OnOk result (HoldsOfAll instance.now bound) }

    // The error that the nodes are no tree is reported before any other.
    ensures only_trees { ¬ (IsPreorder nodes.now) → result ≡ Err (Stop.Fault NodesFault.NotATree) }
    ensures fault { IfFault result (λ f. Explains instance.now [] bound nodes.now f) }
    // It reads nothing.
    ensures unread { is_read_failed result ≡ false }
{
    if !is_tree(nodes) {
        return Err(Stop::Fault(NodesFault::NotATree));
    }
    let mut path = TrailPath::new(alloc, instance)?;
    check_each(&mut path, bound, nodes)
}
