//! The identity of the file that a path leads to.

use crate::fault::OutputFault;
use std::fs;
use std::fs::Metadata;
use std::io::ErrorKind;
use std::os::unix::fs::{FileTypeExt, MetadataExt};
use std::rt::Files;

/// A file by its device and its number on that device, for any name of it.
#[derive(Clone, Copy, Debug, PartialEq, Eq)]
pub struct FileId {
    device: u64,
    number: u64,
}

impl FileId {
    /// Returns the identity of a file that was found; `None` if the file system doesn't number files.
    pub fn of(found: &Metadata) -> Option<FileId> {
        match found.ino() {
            0 => None,
            number => Some(FileId {
                device: found.dev(),
                number,
            }),
        }
    }

    /// Returns the identity of a file that can't serve two purposes at once; `None` for a character device, such as a terminal, which can.
    pub fn of_single(found: &Metadata) -> Option<FileId> {
        if found.file_type().is_char_device() {
            return None;
        }
        FileId::of(found)
    }
}

/// Checks whether an error means that nothing is at a path, or that the file system has no answer; any other error leaves it open.
pub fn is_absent(kind: ErrorKind) -> bool {
    matches!(kind, ErrorKind::NotFound | ErrorKind::Unsupported)
}

/// Checks whether an error means that a file can't be read under a path, so that no output can be the same file.
fn is_unreadable(kind: ErrorKind) -> bool {
    is_absent(kind) || matches!(kind, ErrorKind::NotADirectory | ErrorKind::PermissionDenied)
}

/// Returns the file or folder that a path leads to, links followed; `None` if none can be read there, or if the file system doesn't number files.
pub fn find_id<R: Files>(rt: &R, path: &str) -> Result<Option<FileId>, OutputFault> {
    match fs::metadata(rt, path) {
        Ok(found) => Ok(FileId::of(&found)),
        Err(fault) if is_unreadable(fault.kind()) => Ok(None),
        Err(fault) => Err(OutputFault::from(fault)),
    }
}
