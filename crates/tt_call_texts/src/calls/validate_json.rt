//! The call `validate_json`.

ghost use Rattle.std.specs.Prelude.{IfOk, IfErr, option_map};
ghost use Rattle.tt_table.specs.Table.{IsTimetable};
ghost use Rattle.tt_call_texts.specs.Counts.{AreBroken, FailsGiven, IsCounted, IsCountsAnswer, IsCountsRefusal};

use crate::counts::counts_value;
use crate::lines::line_of;
use std::alloc::{AllocError, Global};
use tt_call_answers::Answer;
use tt_call_wishes::ValidateFault;
use tt_instance::Instance;
use tt_instance_read::read_instance;
use tt_rules::{Score, score};
use tt_table::{Timetable, read_solution};
use tt_wishes::{WishesFault, broken_wishes, read_wishes};

/// Returns the number of wishes that a timetable breaks, if there are bytes of wishes.
fn broken_of(
    alloc: Global,
    instance: &Instance<'_>,
    table: &Timetable,
    wishes: Option<&[u8]>,
) -> Result<Option<u64>, WishesFault>
    requires { IsTimetable instance.now table.now }
    ensures found { IfOk result (AreBroken instance.now table.now (option_map (λ w. w.now) wishes.entry)) }
    ensures fault { IfErr result (FailsGiven instance.now (option_map (λ w. w.now) wishes.entry)) }
{
    let Some(wishes) = wishes else {
        return Ok(None);
    };
    let wishes = read_wishes(alloc, instance, wishes)?;
    Ok(Some(broken_wishes(table, &wishes)))
}

/// Returns the answer for a score and a number of broken wishes, with its status.
fn counts_answer(alloc: Global, score: &Score, broken: Option<u64>) -> Result<Answer, AllocError>
    ensures { IfOk result (IsCountsAnswer score.now broken) }
{
    let value = counts_value(alloc, score, broken)?;
    let is_kept = score.hard() == 0 && broken.unwrap_or(0) == 0;
    Ok(Answer {
        status: if is_kept { 0 } else { 1 },
        out: line_of(alloc, &value)?,
        table: None,
        proof: None,
    })
}

/// Returns the score of a solution of an instance, and the number of wishes that it breaks if wishes are given, as a line of JSON; the status
/// is 1 if a hard rule or a wish is broken.
pub fn validate_json(
    alloc: Global,
    instance: &[u8],
    solution: &[u8],
    wishes: Option<&[u8]>,
) -> Result<Answer, ValidateFault>
    // The answer has the score and the number of broken wishes.
    ensures found { IfOk result (IsCounted instance.now solution.now (option_map (λ w. w.now) wishes.entry)) }
    // A refusal reports the first error: the instance's, then the solution's, then that of the wishes.
    ensures fault { IfErr result (IsCountsRefusal instance.now solution.now (option_map (λ w. w.now) wishes.entry)) }
{
    let instance = read_instance(alloc, instance)?;
    let table = read_solution(alloc, &instance, solution)?;
    let broken = broken_of(alloc, &instance, &table, wishes)?;
    let score = score(&instance, &table);
    Ok(counts_answer(alloc, &score, broken)?)
}
