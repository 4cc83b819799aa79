//! Nodes in preorder, in turn. One path is the whole stack: the second child of each yes-fact behind the facts of the root is not read yet.

ghost use Rattle.std.specs.Prelude.{◌≡◌, ◌≤◌, length, OnOk, IfErr, IsOkUnless};
ghost use Rattle.tt_path.specs.declared.path.TheConstants.{MAX_FACTS};
ghost use Rattle.tt_proof_check.specs.Nodes.{IsNodeOf};
ghost use Rattle.tt_proof_check.specs.Inner.Pending.{ContinuesWith};
ghost use Rattle.tt_proof_check.specs.Inner.Steps.{Steps, Stops};

use tt_leaf::Bound;
use tt_leaf_rules::{RuleFault, holds};
use tt_path::{Fact, Path, PathFault};
use tt_proof_read::Node;

/// The reason why a node was not taken.
#[derive(Clone, Copy, Debug)]
pub enum NodeStop {
    /// The leaf does not close its node.
    Rule(RuleFault),
    /// The children of this split would be too deep.
    TooDeep,
    OutOfMemory,
}

impl From<RuleFault> for NodeStop {
    ghost use Rattle.std.specs.Prelude.{◌≡◌};
    ghost use Rattle.tt_proof_check.specs.declared.walk.NodeStop.TheVariants.{Rule};

    ghost from_gives = { λ f s. s ≡ Rule f };

    fn from(fault: RuleFault) -> NodeStop {
        NodeStop::Rule(fault)
    }
}

impl From<PathFault> for NodeStop {
    ghost use Rattle.std.specs.Prelude.{◌≡◌};
    ghost use Rattle.tt_proof_check.specs.Inner.Steps.{stop_of};

    ghost from_gives = { λ f s. s ≡ stop_of f };

    fn from(fault: PathFault) -> NodeStop {
        match fault {
            PathFault::TooDeep => NodeStop::TooDeep,
            PathFault::OutOfMemory => NodeStop::OutOfMemory,
        }
    }
}

/// Moves to the second child of the newest split whose second child is not read yet, and keeps the facts of the root.
#[inline(always)]
fn advance<'i, P: Path<'i>>(path: &mut P, root: u32) -> Result<(), PathFault>
    requires root { root ≤ length (P.facts path.old) }
    requires within { length (P.facts path.old) ≤ MAX_FACTS }
    ensures next { OnOk result (ContinuesWith root (P.facts path.old) (P.facts path.new)) }
    ensures within { length (P.facts path.new) ≤ MAX_FACTS }
    ensures memory { IsOkUnless result PathFault.OutOfMemory }
    ensures unchanged { P.problem path.new ≡ P.problem path.old }
{
    while path.depth() > root {
        let fact = path.pop();
        if fact.holds {
            return path.push(Fact {
                pattern: fact.pattern,
                holds: false,
            });
        }
    }
    Ok(())
}

/// Takes the due node, and moves to the next place. The root has so many facts.
#[inline(always)]
pub fn check_node<'i, P: Path<'i>>(
    path: &mut P,
    root: u32,
    bound: Bound,
    node: &Node,
) -> Result<(), NodeStop>
    requires node { IsNodeOf (P.problem path.old) node.now }
    requires root { root ≤ length (P.facts path.old) }
    requires within { length (P.facts path.old) ≤ MAX_FACTS }
    ensures steps { OnOk result (Steps (P.problem path.old) root bound (P.facts path.old) node.now (P.facts path.new)) }
    ensures within { OnOk result (length (P.facts path.new) ≤ MAX_FACTS) }
    ensures stops { IfErr result (λ stop. Stops (P.problem path.old) bound (P.facts path.old) node.now stop) }
    ensures unchanged { P.problem path.new ≡ P.problem path.old }
{
    match node {
        Node::Split(pattern) => path.push(Fact {
            pattern: *pattern,
            holds: true,
        })?,
        Node::Leaf(leaf) => {
            holds(path, leaf, bound)?;
            advance(path, root)?;
        }
    }
    Ok(())
}
