//! The files of `sum`.

use crate::kept::{KeptRequest, answer_kept};
use std::cell::{Cell, RefCell};
use std::io::Write;
use tt_call_checks::{check_sum, sum};
use tt_cli_arguments::SumRequest;
use tt_cli_progress::{Shown, World, clear, ticker_of};
use tt_cli_saving::{
    CommandFault, Input, InputFile, Inputs, Naming, Reply, fault_over, proof_files,
};

/// Sums the bounds that proofs derive, and shows the progress of reading them.
fn sum_files<R: World, E: Write>(
    rt: &R,
    instance: &[u8],
    solution: Option<InputFile<'_>>,
    proofs: &[&str],
    shown: &Shown<'_, R, E>,
) -> Result<Reply, CommandFault> {
    let alloc = rt.alloc();
    let unread = Cell::new(None);
    let mut files = proof_files(rt, proofs, Naming::Numbered, false, shown, &unread)?;
    let answer = match solution {
        None => sum(alloc, instance, &mut files),
        Some(solution) => {
            let solution = solution.read(rt)?;
            check_sum(alloc, instance, &solution, &mut files)
        }
    };
    match answer {
        Ok(answer) => Ok(Reply::to(alloc, answer)?),
        Err(fault) => Err(fault_over(alloc, fault, unread.get())),
    }
}

/// Returns the answer of `sum`.
pub fn answer_sum<R: World, E: Write>(
    rt: &R,
    err: &mut E,
    request: &SumRequest<'_>,
) -> Result<Reply, CommandFault> {
    if let Some(wishes) = request.wishes {
        let kept = KeptRequest {
            instance: request.instance,
            wishes,
            solution: request.solution,
            proofs: &request.proofs,
            naming: Naming::Numbered,
        };
        return answer_kept(rt, err, "sum", kept, request.showing);
    }
    let mut inputs = Inputs::new(rt.alloc());
    let instance = inputs.add(Input::Instance, request.instance)?;
    let solution = inputs.add_given(Input::Solution, request.solution)?;
    inputs.add_proofs(&request.proofs, Naming::Numbered)?;
    let instance = instance.read(rt)?;
    let shown = RefCell::new(ticker_of(rt, err, "sum", request.showing));
    let reply = sum_files(rt, &instance, solution, &request.proofs, &shown);
    clear(&shown);
    reply
}
