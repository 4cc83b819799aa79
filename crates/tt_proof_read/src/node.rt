//! The nodes of a proof.

use tt_leaf::Leaf;
use tt_path::Pattern;

/// A node of a proof; a file has the nodes in preorder.
#[derive(Debug, Drop)]
pub enum Node {
    /// The first child is under the yes-fact of the pattern, the second under its no-fact.
    Split(Pattern),
    Leaf(Leaf),
}
