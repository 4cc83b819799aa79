//! The call `check`.

ghost use Rattle.std.specs.Prelude.{◌≡◌, ◌+◌, ℕ, List, Some, Err, true, if◌then◌else◌, IfOk, IfErr};
ghost use Rattle.tt_proof_check.specs.FailedReads.{IsSpelledAndCheckedUpToFailedRead};
ghost use Rattle.tt_text.specs.Failures.{is_err_and};
ghost use Rattle.tt_proof_check.specs.Headline.{BreaksARule, Certifies};
ghost use Rattle.tt_call_checks.specs.Checked.{IsChecked, IsCheckRefusal, IsFileFault, AnswersYes, AnswersBroken, IsYesAnswer, IsBrokenAnswer};
ghost use Rattle.tt_call_answers.specs.Refusals.{is_failed_read};
ghost use Rattle.tt_call_answers.specs.FaultMaps.{HoldsNoStop};

use crate::lines::{broken_line, yes_line};
use std::alloc::{AllocError, Global};
use tt_call_answers::{Answer, AppFault};
use tt_proof_check::{Verdict, certify};
use tt_rules::Score;
use tt_text::Source;

/// Returns the answer `yes`, with a cost and a bound.
pub fn yes_answer(alloc: Global, cost: u64, bound: u64) -> Result<Answer, AllocError>
    ensures { IfOk result (λ a. IsYesAnswer a cost bound) }
{
    Ok(Answer {
        status: 0,
        out: yes_line(alloc, cost, bound)?,
        table: None,
        proof: None,
    })
}

/// Returns the answer that a hard rule is broken, with the sums of the counts.
pub fn broken_answer(alloc: Global, score: &Score) -> Result<Answer, AllocError>
    ensures { IfOk result (λ a. IsBrokenAnswer a
        (score.now.lectures + score.now.conflicts + score.now.availability + score.now.room_occupancy)
        (score.now.room_capacity + score.now.min_working_days + score.now.compactness + score.now.room_stability)) }
{
    Ok(Answer {
        status: 1,
        out: broken_line(alloc, score.hard(), score.cost())?,
        table: None,
        proof: None,
    })
}

/// Checks whether a solution of an instance breaks no hard rule, and returns its cost and the lower bound that a proof derives. The proof is
/// read as it is checked, and only if no hard rule is broken.
pub fn check<R: Source>(
    alloc: Global,
    instance: &[u8],
    solution: &[u8],
    proof: &mut R,
) -> Result<Answer, AppFault>
    // If there is an answer, it is right.
    ensures found { IfOk result (IsChecked instance.now solution.now (R.remaining proof.old)) }
    // A refusal reports the first error.
    ensures fault { IfErr result (IsCheckRefusal instance.now solution.now (R.remaining proof.old)) }
    // If the bytes certify c and b, the answer is `yes` with c and b, unless memory runs out or a read fails.
    ensures yes { (c b : ℕ) (bytes : List ℕ) → R.remaining proof.old ≡ Some bytes →
        Certifies instance.now solution.now bytes c b → AnswersYes result c b }
    // If the timetable breaks a hard rule, the answer says so, unless memory runs out, and the proof isn't read.
    ensures broken { BreaksARule instance.now solution.now → AnswersBroken result × (proof.new ≡ proof.old) }
    // If the instance or the solution is refused, the proof isn't read.
    ensures unread { IfErr result (λ f. IsFileFault f → proof.new ≡ proof.old) }
    // A failed read is reported exactly if a read failed.
    ensures failed { R.has_failed proof.new ≡ (if is_err_and result is_failed_read then true else R.has_failed proof.old) }
    // If a failed read is reported, all the bytes of the proof before it have been checked.
    ensures up_to_failed_read { result ≡ Err AppFault.ReadFailed → (bytes : List ℕ) → R.remaining proof.old ≡ Some bytes →
        IsSpelledAndCheckedUpToFailedRead instance.now bytes (R.remaining proof.new) }
    // A fault holds none of memory or of a failed read.
    ensures lower { IfErr result HoldsNoStop }
{
    match certify(alloc, instance, solution, proof)? {
        Verdict::Yes { cost, bound } => Ok(yes_answer(alloc, cost, bound)?),
        Verdict::Breaks(score) => Ok(broken_answer(alloc, &score)?),
    }
}
