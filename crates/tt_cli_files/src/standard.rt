//! The standard streams, and the paths that lead to them.

use crate::fault::OutputFault;
use crate::identity::{FileId, find_id};
use std::fs;
use std::io::ErrorKind;
use std::rt::Files;

/// The word that means standard input where a file is read, and standard output where one is written.
pub const STANDARD: &str = "-";

/// The link that leads to standard input.
const STANDARD_INPUT: &str = "/proc/self/fd/0";

/// The link that leads to standard output.
const STANDARD_OUTPUT: &str = "/proc/self/fd/1";

/// The link that leads to standard error.
const STANDARD_ERROR: &str = "/proc/self/fd/2";

/// The folder above the folders in which each process has a link for each file that it has open.
const PROCESSES: &str = "/proc/";

/// The name of the folder of these links.
const DESCRIPTORS: &str = "/fd";

/// A standard stream to which an output is written.
#[derive(Clone, Copy, Debug, PartialEq, Eq)]
pub enum StandardStream {
    Output,
    Error,
}

impl StandardStream {
    fn link(self) -> &'static str {
        match self {
            StandardStream::Output => STANDARD_OUTPUT,
            StandardStream::Error => STANDARD_ERROR,
        }
    }

    /// Returns the file that can't serve two purposes at once and is the stream's.
    pub fn find_single<R: Files>(self, rt: &R) -> Result<Option<FileId>, OutputFault> {
        match fs::metadata(rt, self.link()) {
            Ok(found) => Ok(FileId::of_single(&found)),
            Err(fault) if fault.kind() == ErrorKind::OutOfMemory => Err(OutputFault::OutOfMemory),
            Err(_) => Ok(None),
        }
    }
}

/// Returns the standard stream that is a file.
pub fn find_stream<R: Files>(rt: &R, file: FileId) -> Result<Option<StandardStream>, OutputFault> {
    for stream in [StandardStream::Output, StandardStream::Error] {
        if find_id(rt, stream.link())? == Some(file) {
            return Ok(Some(stream));
        }
    }
    Ok(None)
}

/// Checks whether standard input is a file.
pub fn is_standard_input<R: Files>(rt: &R, file: FileId) -> Result<bool, OutputFault> {
    Ok(find_id(rt, STANDARD_INPUT)? == Some(file))
}

/// Returns a path that leads to an input.
pub fn path_of_input(input: &str) -> &str {
    if input == STANDARD {
        STANDARD_INPUT
    } else {
        input
    }
}

/// Checks whether a folder has a process's links to the files that it has open.
pub fn is_of_descriptors(folder: &str) -> bool {
    folder.starts_with(PROCESSES) && folder.ends_with(DESCRIPTORS)
}
