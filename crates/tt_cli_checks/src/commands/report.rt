//! The files of `report`.

use crate::timetable::read_timetable;
use std::io::Write;
use tt_call_answers::AppFault;
use tt_call_texts::report;
use tt_cli_arguments::ReportRequest;
use tt_cli_files::WriteFault;
use tt_cli_progress::World;
use tt_cli_saving::{CommandFault, Remembering};
use tt_text::Writing;

/// Writes a report to standard output, and returns the status.
pub fn report_to<R: World, O: Write>(
    rt: &R,
    request: ReportRequest<'_>,
    out: &mut O,
) -> Result<u8, CommandFault> {
    let texts = read_timetable(rt, request.files)?;
    let mut out = Remembering::new(out);
    let mut sink = Writing::new(&mut out);
    let written = report(
        rt.alloc(),
        &texts.instance,
        &texts.solution,
        request.by,
        &mut sink,
    );
    match written {
        Ok(status) => Ok(status),
        Err(AppFault::CannotWrite) => {
            Err(CommandFault::Write(WriteFault::Unprinted(out.reason())))
        }
        Err(fault) => Err(CommandFault::from(fault)),
    }
}
