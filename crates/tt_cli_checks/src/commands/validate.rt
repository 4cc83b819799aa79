//! The files of `validate`.

use std::io::Write;
use tt_call_checks::validate;
use tt_call_texts::validate_json;
use tt_call_wishes::validate_wishes;
use tt_cli_arguments::ValidateRequest;
use tt_cli_progress::World;
use tt_cli_saving::{CommandFault, Input, Inputs, Reply, show_clash};

/// The bytes of the files of `validate`.
#[derive(Debug, Drop)]
struct ValidateTexts {
    instance: Vec<u8>,
    solution: Vec<u8>,
    wishes: Option<Vec<u8>>,
}

/// Reads the files of `validate`.
fn read_texts<R: World>(
    rt: &R,
    request: ValidateRequest<'_>,
) -> Result<ValidateTexts, CommandFault> {
    let mut inputs = Inputs::new(rt.alloc());
    let instance = inputs.add(Input::Instance, request.files.instance)?;
    let solution = inputs.add(Input::Solution, request.files.solution)?;
    let wishes = inputs.add_given(Input::Wishes, request.wishes)?;
    Ok(ValidateTexts {
        instance: instance.read(rt)?,
        solution: solution.read(rt)?,
        wishes: match wishes {
            Some(wishes) => Some(wishes.read(rt)?),
            None => None,
        },
    })
}

/// Returns the answer of `validate`. Wishes that no feasible timetable keeps are named on standard error, but not with JSON.
pub fn answer_validate<R: World, E: Write>(
    rt: &R,
    err: &mut E,
    request: ValidateRequest<'_>,
) -> Result<Reply, CommandFault> {
    let alloc = rt.alloc();
    let ValidateTexts {
        instance,
        solution,
        wishes,
    } = read_texts(rt, request)?;
    if request.is_json {
        let answer = validate_json(alloc, &instance, &solution, wishes.as_deref())?;
        return Ok(Reply::to(alloc, answer)?);
    }
    let answer = match wishes {
        Some(wishes) => {
            let answer = validate_wishes(alloc, &instance, &solution, &wishes)?;
            show_clash(alloc, err, &instance, &wishes)?;
            answer
        }
        None => validate(alloc, &instance, &solution)?,
    };
    Ok(Reply::to(alloc, answer)?)
}
