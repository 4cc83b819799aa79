//! The test whether standard error is a terminal.

use std::fs;
use std::rt::Files;

/// The link that leads to standard error.
const STANDARD_ERROR: &str = "/proc/self/fd/2";

/// Checks whether standard error leads to a terminal.
pub fn is_terminal<R: Files + AllocGlobal>(rt: &R) -> bool {
    match fs::read_link(rt, STANDARD_ERROR) {
        Ok(target) => {
            let path = target.as_str();
            path.starts_with("/dev/pts/") || path.starts_with("/dev/tty") || path == "/dev/console"
        }
        Err(_) => false,
    }
}
