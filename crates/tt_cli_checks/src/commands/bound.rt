//! The files of `bound`.

use crate::kept::{KeptRequest, answer_kept};
use std::cell::RefCell;
use std::io::Write;
use tt_call_checks::bound;
use tt_cli_arguments::BoundRequest;
use tt_cli_progress::{World, clear, open_counted, ticker_of};
use tt_cli_saving::{CommandFault, Input, Inputs, Naming, Reply, fault_over_proof};
use tt_text::Reading;

/// Returns the answer of `bound`.
pub fn answer_bound<R: World, E: Write>(
    rt: &R,
    err: &mut E,
    request: BoundRequest<'_>,
) -> Result<Reply, CommandFault> {
    if let Some(wishes) = request.wishes {
        let kept = KeptRequest {
            instance: request.instance,
            wishes,
            solution: None,
            proofs: &[request.proof],
            naming: Naming::Alone,
        };
        return answer_kept(rt, err, "bound", kept, request.showing);
    }
    let alloc = rt.alloc();
    let mut inputs = Inputs::new(alloc);
    let instance = inputs.add(Input::Instance, request.instance)?;
    let proof = inputs.add(Input::Proof, request.proof)?;
    let instance = instance.read(rt)?;
    let shown = RefCell::new(ticker_of(rt, err, "bound", request.showing));
    let mut file = match open_counted(rt, proof.path, None, &shown) {
        Ok(file) => file,
        Err(reason) => return Err(proof.unread(alloc, reason)),
    };
    let answer = bound(alloc, &instance, &mut Reading::new(&mut file));
    clear(&shown);
    match answer {
        Ok(answer) => Ok(Reply::to(alloc, answer)?),
        Err(fault) => Err(fault_over_proof(alloc, fault, proof.path, file.reason())),
    }
}
