//! The call `report`.

ghost use Rattle.std.specs.Prelude.{◌≡◌, ◌⊎◌, List, Err, true, if◌then◌else◌, IfOk, IfErr, MatchResult, ⊤};
ghost use Rattle.tt_instance.specs.Problem.{Problem};
ghost use Rattle.tt_instance.specs.declared.cell.Cell.{Cell};
ghost use Rattle.tt_text.specs.Failures.{is_err_and};
ghost use Rattle.tt_call_texts.specs.Reported.{IsReported, IsReportRefusal};
ghost use Rattle.tt_call_answers.specs.Refusals.{IsUnwritten, is_failed_write};
ghost use Rattle.tt_table.specs.Spelling.{SpellsBoth};
ghost use Rattle.tt_call_answers.specs.declared.fault.AppFault.TheVariants as fault;

use std::alloc::Global;
use tt_call_answers::AppFault;
use tt_instance_read::read_instance;
use tt_report::By;
use tt_table::read_solution;
use tt_text::Sink;

/// Writes the week of each room, teacher or curriculum under a solution of an instance; the status is 0.
pub fn report<W: Sink>(
    alloc: Global,
    instance: &[u8],
    solution: &[u8],
    by: By,
    sink: &mut W,
) -> Result<u8, AppFault>
    // The bytes written are the report.
    ensures written { IfOk result (IsReported instance.now solution.now by (W.contents sink.old) (W.contents sink.new)) }
    // A refusal reports the first error.
    ensures fault { IfErr result (IsReportRefusal instance.now solution.now by (W.contents sink.old) (W.contents sink.new)) }
    // If both files are spelled, the report is written, unless memory runs out or a write fails.
    ensures only { (p : Problem) (t : List Cell) → SpellsBoth instance.now solution.now p t →
        MatchResult result (λ _. ⊤) (λ f. (f ≡ fault.OutOfMemory) ⊎ (f ≡ fault.CannotWrite)) }
    // If any other error is reported, nothing is written.
    ensures unwritten { IfErr result (λ f. IsUnwritten f → sink.new ≡ sink.old) }
    // A failed write is reported exactly if a write failed.
    ensures failed { W.has_failed sink.new ≡ (if is_err_and result is_failed_write then true else W.has_failed sink.old) }
{
    let instance = read_instance(alloc, instance)?;
    let table = read_solution(alloc, &instance, solution)?;
    tt_report::report(&instance, &table, by, sink)?;
    Ok(0)
}
