//! The files of `inspect`.

use tt_call_texts::{inspect, inspect_json};
use tt_cli_arguments::InspectRequest;
use tt_cli_progress::World;
use tt_cli_saving::{CommandFault, Input, Inputs, Reply};

/// Returns the answer of `inspect`.
pub fn answer_inspect<R: World>(
    rt: &R,
    request: InspectRequest<'_>,
) -> Result<Reply, CommandFault> {
    let mut inputs = Inputs::new(rt.alloc());
    let instance = inputs.add(Input::Instance, request.instance)?;
    let solution = inputs.add_given(Input::Solution, request.solution)?;
    let instance = instance.read(rt)?;
    let solution = match solution {
        Some(solution) => Some(solution.read(rt)?),
        None => None,
    };
    let answer = if request.is_json {
        inspect_json(rt.alloc(), &instance, solution.as_deref())?
    } else {
        inspect(rt.alloc(), &instance, solution.as_deref())?
    };
    Ok(Reply::to(rt.alloc(), answer)?)
}
