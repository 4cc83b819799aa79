//! The files of `report --csv`.

use crate::timetable::read_timetable;
use tt_call_texts::table;
use tt_cli_arguments::TableRequest;
use tt_cli_progress::World;
use tt_cli_saving::{CommandFault, Reply};

/// Returns the table of a solution.
pub fn answer_table<R: World>(rt: &R, request: TableRequest<'_>) -> Result<Reply, CommandFault> {
    let texts = read_timetable(rt, request.files)?;
    let answer = table(
        rt.alloc(),
        &texts.instance,
        &texts.solution,
        request.bars_formulas,
    )?;
    Ok(Reply::to(rt.alloc(), answer)?)
}
