//! The files of `upgrade`.

use std::cell::RefCell;
use std::io::Write;
use tt_call_checks::upgrade;
use tt_cli_arguments::UpgradeRequest;
use tt_cli_files::{Batch, Role};
use tt_cli_progress::{World, clear, open_counted, ticker_of};
use tt_cli_saving::{CommandFault, Input, Inputs, Reply, Target, fault_over_proof, reply_with};
use tt_text::Reading;

/// Returns the answer of `upgrade`, once the proof is in its file.
pub fn answer_upgrade<R: World, E: Write>(
    rt: &R,
    err: &mut E,
    request: UpgradeRequest<'_>,
) -> Result<Reply, CommandFault> {
    let alloc = rt.alloc();
    let mut inputs = Inputs::new(alloc);
    let instance = inputs.add(Input::Instance, request.instance)?;
    let proof = inputs.add(Input::Proof, request.proof)?;
    let target = Target {
        role: Role::Proof,
        path: request.out,
    };
    let out = target.find(rt, &inputs)?;
    let instance = instance.read(rt)?;
    let shown = RefCell::new(ticker_of(rt, err, "upgrade", request.showing));
    let mut file = match open_counted(rt, proof.path, None, &shown) {
        Ok(file) => file,
        Err(reason) => return Err(proof.unread(alloc, reason)),
    };
    let mut out = out.prepare(rt)?;
    let answer = upgrade(alloc, &instance, &mut Reading::new(&mut file));
    clear(&shown);
    match answer {
        Ok(answer) => {
            let batch = out.write_given(rt, Batch::new(alloc), &answer.proof)?;
            reply_with(rt, batch, answer.status, answer.out)
        }
        Err(fault) => Err(fault_over_proof(alloc, fault, proof.path, file.reason())),
    }
}
