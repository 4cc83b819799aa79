//! The call `upgrade`.

ghost use Rattle.std.specs.Prelude.{◌≡◌, ℕ, List, [], Some, Err, true, if◌then◌else◌, IfOk, IfErr};
ghost use Rattle.tt_instance.specs.Problem.{Problem};
ghost use Rattle.tt_instance.specs.Spelling.{Spells};
ghost use Rattle.tt_leaf.specs.declared.leaf.Bound.{Bound};
ghost use Rattle.tt_text.specs.Failures.{is_err_and};
ghost use Rattle.tt_proof_check.specs.Streams.{IsProved};
ghost use Rattle.tt_call_answers.specs.Refusals.{is_failed_read};
ghost use Rattle.tt_call_checks.specs.Bounded.{IsOfInstance};
ghost use Rattle.tt_call_checks.specs.Rewritten.{IsRewritten, IsUpgradeAnswer, IsSpelledAndReadUpToFailedRead, IsUpgradeRefusal, AnswersUpgrade};
ghost use Rattle.tt_call_answers.specs.FaultMaps.{HoldsNoStop};

use crate::lines::bound_line;
use std::alloc::{AllocError, Global};
use tt_call_answers::{Answer, AppFault};
use tt_instance_read::read_instance;
use tt_proof_upgrade::Upgraded;
use tt_text::Source;

fn upgraded_answer(alloc: Global, upgraded: Upgraded) -> Result<Answer, AllocError>
    ensures { IfOk result (λ a. IsUpgradeAnswer a upgraded.bound upgraded.bytes.items) }
{
    Ok(Answer {
        status: 0,
        out: bound_line(alloc, upgraded.bound)?,
        table: None,
        proof: Some(upgraded.bytes),
    })
}

/// Checks a proof of either version, which is read whole, and writes its bound and its tree in version 2.
pub fn upgrade<R: Source>(alloc: Global, instance: &[u8], proof: &mut R) -> Result<Answer, AppFault>
    // The proof written derives the same bound by the same tree, and the bound holds.
    ensures found { IfOk result (IsRewritten instance.now (R.remaining proof.old)) }
    // A refusal reports the first error.
    ensures fault { IfErr result (IsUpgradeRefusal instance.now (R.remaining proof.old)) }
    // If a bound is derived, the proof is written, unless memory runs out, a read fails or the text grows too large.
    ensures only { (p : Problem) (bytes : List ℕ) (b : Bound) → Spells instance.now p → R.remaining proof.old ≡ Some bytes →
        IsProved p [] bytes b → AnswersUpgrade result b }
    // If the instance is refused, the proof isn't read.
    ensures unread { IfErr result (λ f. IsOfInstance f → proof.new ≡ proof.old) }
    // A failed read is reported exactly if a read failed.
    ensures failed { R.has_failed proof.new ≡ (if is_err_and result is_failed_read then true else R.has_failed proof.old) }
    // If a failed read is reported, all the bytes of the proof before it have been read.
    ensures up_to_failed_read { result ≡ Err AppFault.ReadFailed → (bytes : List ℕ) → R.remaining proof.old ≡ Some bytes →
        IsSpelledAndReadUpToFailedRead instance.now bytes (R.remaining proof.new) }
    // A fault holds none of memory or of a failed read.
    ensures lower { IfErr result HoldsNoStop }
{
    let instance = read_instance(alloc, instance)?;
    let upgraded = tt_proof_upgrade::upgrade(alloc, &instance, proof)?;
    Ok(upgraded_answer(alloc, upgraded)?)
}
