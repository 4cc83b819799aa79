//! The reasons why an output isn't written.

use std::alloc::{AllocError, AllocFailed};
use std::io;
use std::io::ErrorKind;
use thiserror::Error;

/// The reason why an output isn't written.
#[derive(Clone, Copy, Debug, Error)]
pub enum OutputFault {
    #[error("out of memory")]
    OutOfMemory,
    /// The system's reason.
    #[error("{0}")]
    System(io::Error),
    #[error("is empty")]
    IsEmpty,
    #[error("is a folder")]
    IsFolder,
    /// The path ends in a slash, or in a name that only folders have.
    #[error("ends in /")]
    EndsInSlash,
    #[error("is standard input")]
    IsStandardInput,
    #[error("is a file that the command reads")]
    IsRead,
    #[error("is also {0}")]
    IsOutput(Role),
    #[error("leads through too many links")]
    ManyLinks,
    /// Each name that a new file could have is taken.
    #[error("there is no name for a new file beside it")]
    NoName,
}

/// What an output is for.
#[derive(Clone, Copy, Debug, PartialEq, Eq, Error)]
pub enum Role {
    #[error("output solution")]
    Solution,
    #[error("output proof")]
    Proof,
    #[error("output page")]
    Page,
    #[error("output folder")]
    Folder,
}

impl From<AllocError> for OutputFault {
    fn from(_e: AllocError) -> OutputFault {
        OutputFault::OutOfMemory
    }
}

impl<T: Drop> From<AllocFailed<T>> for OutputFault {
    fn from(_e: AllocFailed<T>) -> OutputFault {
        OutputFault::OutOfMemory
    }
}

impl From<io::Error> for OutputFault {
    fn from(e: io::Error) -> OutputFault {
        match e.kind() {
            ErrorKind::OutOfMemory => OutputFault::OutOfMemory,
            _ => OutputFault::System(e),
        }
    }
}
