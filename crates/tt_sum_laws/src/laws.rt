//! The first fault of files that are added up.

ghost use Rattle.std.specs.Prelude.{◌≡◌, ℕ, List};
ghost use Rattle.tt_instance.specs.Problem.{Problem};
ghost use Rattle.tt_instance.specs.Limits.{IsInstance};
ghost use Rattle.tt_path.specs.declared.facts.Fact.{Fact};
ghost use Rattle.tt_proof_sum.specs.Faults.{IsSumStopOn, IsUnfinished};
ghost use Rattle.tt_proof_sum.specs.declared.fault.FileFault.{FileFault};
ghost use Rattle.tt_text.specs.declared.stop.Stop.TheVariants.{Fault};

/// Files that are added up have at most one fault, in one file, unless a fault says only that the check of a claim wasn't finished: such a claim
/// may be right, so that a later fault may be there too. This holds for any facts at the root of each tree; with none it is said of
/// `IsSumStop`.
pub fn sums_have_one_fault()
    ensures { (p : Problem) (root : List Fact) (files : List (List ℕ)) (m n : ℕ) (f g : FileFault) → IsInstance p →
        IsSumStopOn p root files m (Fault f) → IsSumStopOn p root files n (Fault g) → ¬ IsUnfinished f → ¬ IsUnfinished g → (m ≡ n) × (f ≡ g) }
{}
