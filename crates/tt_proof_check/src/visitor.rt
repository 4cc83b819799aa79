//! A visitor that visits the nodes of a proof.

ghost use Rattle.std.specs.Prelude.{ℕ};
ghost use Rattle.tt_proof_read.specs.declared.node.Node.{Node};

use tt_proof_read::Node;

/// Visits the nodes of a proof as they are checked.
pub trait NodeVisitor {
    // The effect of visiting a node with its number.
    ghost visits: { Self → ℕ → Node → Self → Type 0 };

    /// Visits the next node, which may still be found wrong. Nodes are numbered from 0 in the order of the file.
    fn visit(&mut self, number: u32, node: &Node)
        ensures { visits self.old number node.now self.new };
}

/// A visitor that ignores the nodes.
#[derive(Clone, Copy, Debug)]
pub struct NoVisitor;

impl NodeVisitor for NoVisitor {
    ghost use Rattle.std.specs.Prelude.{⊤};

    ghost visits = { λ old number node new. ⊤ };

    #[inline(always)]
    fn visit(&mut self, _number: u32, _node: &Node) {}
}
