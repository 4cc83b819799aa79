//! What a fault of a proof's bytes says of others.

ghost use Rattle.std.specs.Prelude.{◌≡◌, ℕ, List, Any, Some};
ghost use Rattle.tt_text.specs.Tokens.{tokens_of};
ghost use Rattle.tt_instance.specs.Beginnings.{BeginsAs};
ghost use Rattle.tt_instance.specs.Limits.{IsInstance};
ghost use Rattle.tt_instance.specs.Problem.{Problem};
ghost use Rattle.tt_leaf.specs.declared.leaf.Bound.{Bound};
ghost use Rattle.tt_proof_read.specs.Beginnings.{token_offset, ReadingFails};
ghost use Rattle.tt_proof_read.specs.Reads.{stream_of_bytes};
ghost use Rattle.tt_proof_read.specs.Sizes.{AreSizes};
ghost use Rattle.tt_proof_read.specs.Spelling.{SpellsProof};
ghost use Rattle.tt_proof_read.specs.Trees.{Tree};
ghost use Rattle.tt_proof_read.specs.declared.fault.TextFault.{TextFault};
ghost use Rattle.tt_proof_read.specs.declared.sizes.Sizes.{Sizes};

/// If reading a proof of an instance fails at a token, then that token is in the bytes, and no bytes whose tokens have the same texts up to it, and
/// that one too, spell a proof of this instance, regardless of what follows.
pub fn faulty_beginnings_spell_none()
    ensures token { (sizes : Sizes) (bytes : List ℕ) (e : TextFault) (at : ℕ) →
        ReadingFails sizes (stream_of_bytes bytes) e → token_offset e ≡ Some at → Any (λ t. t.at ≡ at) (tokens_of bytes) }
    ensures none { (p : Problem) (sizes : Sizes) → IsInstance p → AreSizes p sizes → (bytes other : List ℕ) (e : TextFault) (at : ℕ) →
        ReadingFails sizes (stream_of_bytes bytes) e → token_offset e ≡ Some at → BeginsAs at bytes other →
        (version : ℕ) (b : Bound) (tree : Tree) → ¬ SpellsProof p other version b tree }
{}
