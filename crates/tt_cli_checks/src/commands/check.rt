//! The files of `check`.

use crate::built_in;
use crate::kept::{KeptRequest, answer_kept};
use std::cell::RefCell;
use std::io::Write;
use tt_call_checks::check;
use tt_cli_arguments::CheckRequest;
use tt_cli_progress::{World, clear, open_counted, ticker_of};
use tt_cli_saving::{CommandFault, Input, Inputs, Naming, Reply, fault_over_proof};
use tt_text::{Pieces, Reading};

/// Returns the answer of `check`.
pub fn answer_check<R: World, E: Write>(
    rt: &R,
    err: &mut E,
    request: CheckRequest<'_>,
) -> Result<Reply, CommandFault> {
    if let Some(wishes) = request.wishes {
        let kept = KeptRequest {
            instance: request.instance,
            wishes,
            solution: Some(request.solution),
            proofs: &[request.proof],
            naming: Naming::Alone,
        };
        return answer_kept(rt, err, "check", kept, request.showing);
    }
    let alloc = rt.alloc();
    let mut inputs = Inputs::new(alloc);
    let instance = inputs.add(Input::Instance, request.instance)?;
    let solution = inputs.add(Input::Solution, request.solution)?;
    let proof = inputs.add(Input::Proof, request.proof)?;
    let instance = instance.read(rt)?;
    let solution = solution.read(rt)?;
    let shown = RefCell::new(ticker_of(rt, err, "check", request.showing));
    let mut file = match open_counted(rt, proof.path, None, &shown) {
        Ok(file) => file,
        Err(reason) => return Err(proof.unread(alloc, reason)),
    };
    let answer = check(alloc, &instance, &solution, &mut Reading::new(&mut file));
    clear(&shown);
    match answer {
        Ok(answer) => Ok(Reply::to(alloc, answer)?),
        Err(fault) => Err(fault_over_proof(alloc, fault, proof.path, file.reason())),
    }
}

/// Checks the built-in instance, solution and proof.
pub fn answer_stored<R: World>(rt: &R) -> Result<Reply, CommandFault> {
    let mut proof = Pieces::new(built_in::PROOF, 64, 0);
    let answer = check(
        rt.alloc(),
        built_in::INSTANCE,
        built_in::SOLUTION,
        &mut proof,
    )?;
    Ok(Reply::to(rt.alloc(), answer)?)
}
