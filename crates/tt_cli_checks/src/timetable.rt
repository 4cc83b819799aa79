//! An instance with a solution.

use tt_cli_arguments::TimetableFiles;
use tt_cli_progress::World;
use tt_cli_saving::{CommandFault, Input, Inputs};

/// The bytes of an instance and of a solution.
#[derive(Debug, Drop)]
pub struct TimetableTexts {
    pub instance: Vec<u8>,
    pub solution: Vec<u8>,
}

/// Reads an instance and a solution.
pub fn read_timetable<R: World>(
    rt: &R,
    files: TimetableFiles<'_>,
) -> Result<TimetableTexts, CommandFault> {
    let mut inputs = Inputs::new(rt.alloc());
    let instance = inputs.add(Input::Instance, files.instance)?;
    let solution = inputs.add(Input::Solution, files.solution)?;
    Ok(TimetableTexts {
        instance: instance.read(rt)?,
        solution: solution.read(rt)?,
    })
}
