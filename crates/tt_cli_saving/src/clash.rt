//! What is said of wishes that no feasible timetable keeps.

use std::alloc::{AllocError, Global};
use std::io::Write;
use tt_call_wishes::{ValidateFault, find_clashing_lines};

/// Writes on standard error why no feasible timetable keeps all wishes, if a reason is found. A failed write has no effect, nor have files that are
/// refused.
pub fn show_clash<E: Write>(
    alloc: Global,
    err: &mut E,
    instance: &[u8],
    wishes: &[u8],
) -> Result<(), AllocError> {
    match find_clashing_lines(alloc, instance, wishes) {
        Ok(Some(lines)) => {
            let _ = writeln!(err, "{lines}");
            Ok(())
        }
        Err(ValidateFault::OutOfMemory) => Err(AllocError),
        _ => Ok(()),
    }
}
