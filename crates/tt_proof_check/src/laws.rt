//! The meaning of a proof.

ghost use Rattle.std.specs.Prelude.{◌≡◌, ℕ, List, Some};
ghost use Rattle.tt_text.specs.Feeds.{Stream};
ghost use Rattle.tt_instance.specs.Problem.{Problem};
ghost use Rattle.tt_path.specs.declared.facts.Fact.{Fact};
ghost use Rattle.tt_leaf.specs.declared.leaf.Bound.{Bound};
ghost use Rattle.tt_proof_read.specs.Trees.{Tree};
ghost use Rattle.tt_proof_check.specs.Derives.{Derives, HoldsOn};
ghost use Rattle.tt_proof_check.specs.Streams.{IsProofFault};
ghost use Rattle.tt_proof_check.specs.Verdicts.{IsFirstFault};
ghost use Rattle.tt_proof_check.specs.declared.fault.CheckFault.{CheckFault};
ghost use Rattle.tt_proof_check.specs.declared.fault.CertifyFault.{CertifyFault};

/// A bound that a tree derives on a path holds for every feasible timetable that fits the path: each costs at least the bound, or there is none.
pub fn derived_bounds_hold()
    ensures { (p : Problem) (b : Bound) (path : List Fact) (tree : Tree) → Derives p b path tree → HoldsOn p b path }
{}

/// A proof has at most one fault.
pub fn proofs_have_one_fault()
    ensures { (p : Problem) (root : List Fact) (s : Stream) (f g : CheckFault) → IsProofFault p root s f → IsProofFault p root s g → f ≡ g }
{}

/// An instance, a solution and a proof have at most one first fault.
pub fn files_have_one_fault()
    ensures { (i s bytes : List ℕ) (f g : CertifyFault) → IsFirstFault i s (Some bytes) f → IsFirstFault i s (Some bytes) g → f ≡ g }
{}
