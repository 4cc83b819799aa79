//! The nodes of a tree that grows.

ghost use Rattle.std.specs.Prelude.{◌≡◌, true, IfSome, IsNone};
ghost use Rattle.tt_branch.specs.Inner.Growing.{is_open};

use tt_leaf::Leaf;
use tt_path::Pattern;

/// How far a node has been searched.
#[derive(Drop)]
pub enum NodeState {
    /// The node is split, and its children follow it.
    Split(Pattern),
    /// A leaf closes the node.
    Closed(Leaf),
    /// The node was opened but not closed; it will be split by this pattern.
    Opened(Pattern),
    /// The node was not opened yet.
    Unopened,
}

impl NodeState {
    /// Returns the pattern by which an opened node will be split.
    pub fn pattern(&self) -> Option<Pattern>
        ensures opened { IfSome result (λ g. self.now ≡ NodeState.Opened g) }
        ensures none { IsNone result → is_open self.now ≡ true → self.now ≡ NodeState.Unopened }
    {
        match self {
            NodeState::Opened(pattern) => Some(*pattern),
            _ => None,
        }
    }
}

/// By how much the best claims of the two children exceed those of a node, in cost points.
#[derive(Clone, Copy)]
pub struct ChildGains {
    pub yes: u64,
    pub no: u64,
}

impl ChildGains {
    pub const NONE: ChildGains = ChildGains { yes: 0, no: 0 };

    /// Returns whether the second child has a lower value than the first.
    pub fn is_second_better(self) -> bool {
        self.no < self.yes
    }
}

/// A node of the tree.
#[derive(Drop)]
pub struct TreeNode {
    pub mark: NodeState,
    /// The place of its facts, by the links.
    pub link: usize,
    /// The value of the best claims: the open node with the least key is next.
    pub key: u64,
    pub rises: ChildGains,
}

impl TreeNode {
    /// Creates a node that waits.
    pub fn waiting(link: usize, key: u64) -> TreeNode
        ensures mark { result.mark ≡ NodeState.Unopened }
        ensures link { result.link ≡ link }
    {
        TreeNode {
            mark: NodeState::Unopened,
            link,
            key,
            rises: ChildGains::NONE,
        }
    }

    /// Returns whether no leaf closes the node and it is not split.
    pub fn is_open(&self) -> bool
        ensures { result ≡ is_open self.now.mark }
    {
        match self.mark {
            NodeState::Opened(_) | NodeState::Unopened => true,
            NodeState::Split(_) | NodeState::Closed(_) => false,
        }
    }
}
