//! The meaning of reading a proof node by node.

ghost use Rattle.std.specs.Prelude.{◌≡◌, ◌≤◌, ◌↔◌, ℕ, List, [], length, Some};
ghost use Rattle.tt_instance.specs.Limits.{IsInstance};
ghost use Rattle.tt_instance.specs.Problem.{Problem};
ghost use Rattle.tt_leaf.specs.Ranges.{IsLeafOf};
ghost use Rattle.tt_leaf.specs.declared.leaf.Bound.{Bound};
ghost use Rattle.tt_leaf.specs.declared.leaf.Leaf.{Leaf};
ghost use Rattle.tt_proof_read.specs.Limits.{IsShortLeaf, IsLeafIn};
ghost use Rattle.tt_proof_read.specs.Reads.{Reads, open_after, stream_of_bytes};
ghost use Rattle.tt_proof_read.specs.Sizes.{AreSizes};
ghost use Rattle.tt_proof_read.specs.Spelling.{IsLeaf, SpellsProof};
ghost use Rattle.tt_proof_read.specs.Trees.{Tree, AllLeaves, IsPreorder};
ghost use Rattle.tt_proof_read.specs.declared.node.Node.{Node};
ghost use Rattle.tt_proof_read.specs.declared.sizes.Sizes.{Sizes};
ghost use Rattle.tt_path.specs.declared.path.TheConstants.{MAX_FACTS};

/// If the stream of some bytes, read node by node, is a proof without a path longer than 65,536 facts, the bytes spell this proof;
/// and each proof that they spell is read in this way.
pub fn read_proofs_are_spelled()
    ensures read { (p : Problem) (sizes : Sizes) → AreSizes p sizes → (bytes : List ℕ) (version : ℕ) (b : Bound) (tree : Tree) →
        AllLeaves (λ path _. length path ≤ MAX_FACTS) [] tree → Reads sizes (stream_of_bytes bytes) version b tree → SpellsProof p bytes version b tree }
    ensures spelled { (p : Problem) (sizes : Sizes) → IsInstance p → AreSizes p sizes → (bytes : List ℕ) (version : ℕ) (b : Bound) (tree : Tree) →
        SpellsProof p bytes version b tree → Reads sizes (stream_of_bytes bytes) version b tree }
{}

/// Nodes leave no place of a tree open exactly if they are the nodes of one tree, in preorder. `NodeReader` counts these places, and `whole`
/// says that none is open.
pub fn filled_trees_are_whole()
    ensures { (nodes : List Node) → (open_after 1 nodes ≡ Some 0) ↔ IsPreorder nodes }
{}

/// A leaf may appear in a proof of a version exactly if its numbers are in the range of the instance, it is within the limits and its claims
/// belong to the version.
pub fn leaves_in_proofs()
    ensures { (p : Problem) (version : ℕ) (leaf : Leaf) → IsLeaf p version leaf ↔ (IsLeafOf p leaf × IsShortLeaf leaf × IsLeafIn version leaf) }
{}
