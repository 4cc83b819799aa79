//! The call `validate`.

ghost use Rattle.std.specs.Prelude.{◌≡◌, List, IfOk, IfErr, MatchResult, ⊤};
ghost use Rattle.tt_instance.specs.Problem.{Problem};
ghost use Rattle.tt_instance.specs.declared.cell.Cell.{Cell};
ghost use Rattle.tt_table.specs.Spelling.{SpellsBoth};
ghost use Rattle.tt_call_checks.specs.Validated.{IsScoreAnswer, IsValidated, score_lines};
ghost use Rattle.tt_call_answers.specs.Refusals.{IsFileRefusal};
ghost use Rattle.tt_call_answers.specs.declared.fault.AppFault.TheVariants as fault;

use crate::lines::put_count;
use std::alloc::{AllocError, Global};
use tt_call_answers::{Answer, AppFault};
use tt_instance_read::read_instance;
use tt_rules::{Score, score};
use tt_table::read_solution;

/// Returns the ten lines of a score.
pub fn score_text(alloc: Global, score: &Score) -> Result<Vec<u8>, AllocError>
    ensures { IfOk result (λ out. out.items ≡ score_lines score.now) }
{
    let mut out = Vec::new(alloc);
    put_count(&mut out, b"lectures", score.lectures)?;
    put_count(&mut out, b"conflicts", score.conflicts)?;
    put_count(&mut out, b"availability", score.availability)?;
    put_count(&mut out, b"room_occupancy", score.room_occupancy)?;
    put_count(&mut out, b"room_capacity", score.room_capacity)?;
    put_count(&mut out, b"min_working_days", score.min_working_days)?;
    put_count(&mut out, b"compactness", score.compactness)?;
    put_count(&mut out, b"room_stability", score.room_stability)?;
    put_count(&mut out, b"hard", score.hard())?;
    put_count(&mut out, b"cost", score.cost())?;
    Ok(out)
}

/// Returns the answer for a score, with its status.
fn score_answer(alloc: Global, score: &Score) -> Result<Answer, AllocError>
    ensures { IfOk result (IsScoreAnswer score.now) }
{
    Ok(Answer {
        status: if score.feasible() { 0 } else { 1 },
        out: score_text(alloc, score)?,
        table: None,
        proof: None,
    })
}

/// Returns the score of a solution of an instance, in ten lines; the status is 1 if a hard rule is broken.
pub fn validate(alloc: Global, instance: &[u8], solution: &[u8]) -> Result<Answer, AppFault>
    // The answer has the score.
    ensures found { IfOk result (IsValidated instance.now solution.now) }
    // A refusal reports the first error.
    ensures fault { IfErr result (IsFileRefusal instance.now solution.now) }
    // If both files are spelled, there is an answer, unless memory runs out.
    ensures only { (p : Problem) (t : List Cell) → SpellsBoth instance.now solution.now p t →
        MatchResult result (λ _. ⊤) (λ f. f ≡ fault.OutOfMemory) }
{
    let instance = read_instance(alloc, instance)?;
    let table = read_solution(alloc, &instance, solution)?;
    let score = score(&instance, &table);
    Ok(score_answer(alloc, &score)?)
}
