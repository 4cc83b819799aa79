//! Makes folders.

use crate::draft::sync_folder;
use crate::fault::OutputFault;
use crate::place::folder_of;
use std::fs;
use std::rt::Files;

/// Makes a folder if nothing is at its path, and has the system store its name. Returns whether it was made; if it couldn't be, the first
/// file that is tried in it reports an error. After an error the folder isn't there.
pub fn make_folder<R: Files>(rt: &R, path: &str) -> Result<bool, OutputFault> {
    if path.is_empty() {
        return Err(OutputFault::IsEmpty);
    }
    if fs::create_dir(rt, path).is_err() {
        return Ok(false);
    }
    match sync_folder(rt, folder_of(path)) {
        Ok(()) => Ok(true),
        Err(fault) => {
            let _ = fs::remove_dir(rt, path);
            Err(fault)
        }
    }
}
