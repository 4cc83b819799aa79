//! The call `bound`.

ghost use Rattle.std.specs.Prelude.{◌≡◌, ℕ, List, [], Some, Err, true, if◌then◌else◌, IfOk, IfErr};
ghost use Rattle.tt_instance.specs.Problem.{Problem};
ghost use Rattle.tt_instance.specs.Spelling.{Spells};
ghost use Rattle.tt_leaf.specs.declared.leaf.Bound.{Bound};
ghost use Rattle.tt_proof_check.specs.FailedReads.{IsSpelledAndCheckedUpToFailedRead};
ghost use Rattle.tt_text.specs.Failures.{is_err_and};
ghost use Rattle.tt_proof_check.specs.Streams.{IsProved};
ghost use Rattle.tt_call_answers.specs.Refusals.{is_failed_read};
ghost use Rattle.tt_call_checks.specs.Bounded.{IsBounded, IsBoundAnswer, IsBoundRefusal, AnswersBound, IsOfInstance};
ghost use Rattle.tt_call_answers.specs.FaultMaps.{HoldsNoStop};

use crate::lines::bound_line;
use std::alloc::{AllocError, Global};
use tt_call_answers::{Answer, AppFault};
use tt_instance_read::read_instance;
use tt_leaf::Bound;
use tt_proof_check::check_proof;
use tt_text::Source;

/// Returns the answer that is this bound's line.
pub fn bound_answer(alloc: Global, bound: Bound) -> Result<Answer, AllocError>
    ensures { IfOk result (λ a. IsBoundAnswer a bound) }
{
    Ok(Answer {
        status: 0,
        out: bound_line(alloc, bound)?,
        table: None,
        proof: None,
    })
}

/// Returns the lower bound that a proof derives for an instance.
pub fn bound<R: Source>(alloc: Global, instance: &[u8], proof: &mut R) -> Result<Answer, AppFault>
    // The bound in the answer is derived, and holds.
    ensures found { IfOk result (IsBounded instance.now (R.remaining proof.old)) }
    // A refusal reports the first error.
    ensures fault { IfErr result (IsBoundRefusal instance.now (R.remaining proof.old)) }
    // If a bound is derived, it is the answer, unless memory runs out or a read fails.
    ensures only { (p : Problem) (bytes : List ℕ) (b : Bound) → Spells instance.now p → R.remaining proof.old ≡ Some bytes →
        IsProved p [] bytes b → AnswersBound result b }
    // If the instance is refused, the proof isn't read.
    ensures unread { IfErr result (λ f. IsOfInstance f → proof.new ≡ proof.old) }
    // A failed read is reported exactly if a read failed.
    ensures failed { R.has_failed proof.new ≡ (if is_err_and result is_failed_read then true else R.has_failed proof.old) }
    // If a failed read is reported, all the bytes of the proof before it have been checked.
    ensures up_to_failed_read { result ≡ Err AppFault.ReadFailed → (bytes : List ℕ) → R.remaining proof.old ≡ Some bytes →
        IsSpelledAndCheckedUpToFailedRead instance.now bytes (R.remaining proof.new) }
    // A fault holds none of memory or of a failed read.
    ensures lower { IfErr result HoldsNoStop }
{
    let instance = read_instance(alloc, instance)?;
    let bound = check_proof(alloc, &instance, proof)?;
    Ok(bound_answer(alloc, bound)?)
}
