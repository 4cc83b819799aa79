//! Where results are that couldn't be renamed to their places.

use crate::fault::{OutputFault, Role};
use std::alloc::{AllocError, AllocFailed, Global};
use std::rt::Files;
use std::{fmt, fs, io};
use thiserror::Error;

/// An output by its role, and the path that was given for it.
#[derive(Debug, Drop)]
pub struct Label {
    pub role: Role,
    pub path: String,
}

impl Label {
    /// Returns the label of an output.
    pub fn new(alloc: Global, role: Role, path: &str) -> Result<Label, AllocError> {
        Ok(Label {
            role,
            path: String::from_str(alloc, path)?,
        })
    }

    /// Returns a copy of the label.
    pub fn copy(&self) -> Result<Label, AllocError> {
        Ok(Label {
            role: self.role,
            path: self.path.clone()?,
        })
    }

    /// Returns the fault of the output.
    pub fn with_fault(self, fault: OutputFault) -> WriteFault {
        match fault {
            OutputFault::OutOfMemory => WriteFault::OutOfMemory,
            fault => WriteFault::Unwritten(Unwritten {
                output: self,
                fault,
                rescued: None,
            }),
        }
    }
}

/// Where a result is.
#[derive(Debug, Drop)]
pub enum Whereabouts {
    /// In its place.
    Place,
    /// Whole in the file of this path.
    File(String),
    /// In no file: it is to be printed.
    Text(Vec<u8>),
    /// In no file, and standard output is taken.
    Lost,
}

/// A result that was to be written with an output that failed.
#[derive(Debug, Drop)]
pub struct Rescued {
    pub role: Role,
    pub whereabouts: Whereabouts,
}

impl fmt::Display for Rescued {
    fn fmt<W: fmt::Write>(&self, f: &mut fmt::Formatter<W>) -> fmt::Result {
        let role = self.role;
        match &self.whereabouts {
            Whereabouts::Place => write!(f, "{role} is in its place"),
            Whereabouts::File(path) => write!(f, "{role} is kept as {path}"),
            Whereabouts::Text(_) => write!(f, "{role} is on standard output"),
            Whereabouts::Lost => write!(f, "{role} is lost"),
        }
    }
}

/// An output that isn't written, with the reason, and the results that were to be written with it.
#[derive(Debug, Drop)]
pub struct Unwritten {
    pub output: Label,
    pub fault: OutputFault,
    pub rescued: Option<Vec<Rescued>>,
}

impl Unwritten {
    /// Removes the files that are still next to their places.
    pub fn remove_kept<R: Files>(&self, rt: &R) {
        if let Some(rescued) = &self.rescued {
            for result in rescued {
                if let Whereabouts::File(path) = &result.whereabouts {
                    let _ = fs::remove_file(rt, path.as_str());
                }
            }
        }
    }
}

impl fmt::Display for Unwritten {
    fn fmt<W: fmt::Write>(&self, f: &mut fmt::Formatter<W>) -> fmt::Result {
        let Label { role, path } = &self.output;
        let fault = self.fault;
        write!(f, "{role}: {path}: {fault}")?;
        if let Some(rescued) = &self.rescued {
            for result in rescued {
                write!(f, "; {result}")?;
            }
        }
        Ok(())
    }
}

/// The reason why a command's outputs aren't written.
#[derive(Debug, Drop, Error)]
pub enum WriteFault {
    #[error("out of memory")]
    OutOfMemory,
    #[error("cannot write: {0}")]
    Unwritten(Unwritten),
    /// Standard output takes no more, for the system's reason, if it is known.
    #[error("cannot write: standard output: {0}")]
    Unprinted(io::Error),
}

impl From<AllocError> for WriteFault {
    fn from(_e: AllocError) -> WriteFault {
        WriteFault::OutOfMemory
    }
}

impl<T: Drop> From<AllocFailed<T>> for WriteFault {
    fn from(_e: AllocFailed<T>) -> WriteFault {
        WriteFault::OutOfMemory
    }
}
