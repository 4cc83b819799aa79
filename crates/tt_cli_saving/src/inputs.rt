//! The files that a command reads.

use crate::fault::CommandFault;
use std::alloc::{AllocError, Global};
use std::io;
use std::io::ErrorKind;
use thiserror::Error;
use tt_cli_files::{OutputFault, STANDARD};
use tt_cli_progress::{Noting, World, open_input};
use tt_text::{Reading, WholeFault, read_whole};

/// The maximum number of bytes of an instance file and of a solution file.
pub const MAX_FILE_BYTES: usize = 67_108_864;

/// What a file is for a command that reads it.
#[derive(Clone, Copy, Debug, PartialEq, Eq, Error)]
pub enum Input {
    #[error("instance")]
    Instance,
    #[error("solution")]
    Solution,
    /// The solution with which another one is compared.
    #[error("older solution")]
    OlderSolution,
    /// What a timetable is to keep besides the hard rules.
    #[error("wishes")]
    Wishes,
    #[error("proof")]
    Proof,
    /// One of several proofs, by its number from 1 on.
    #[error("proof {0}")]
    NumberedProof(u64),
}

/// How faults and progress call the proofs of a command.
#[derive(Clone, Copy, Debug, PartialEq, Eq)]
pub enum Naming {
    /// `proof`, if the command takes one.
    Alone,
    /// `proof 1`, `proof 2` and so on, if it takes several.
    Numbered,
}

impl Naming {
    /// Returns the file of the proof with this number, from 1 on.
    fn input(self, number: u64) -> Input {
        match self {
            Naming::Alone => Input::Proof,
            Naming::Numbered => Input::NumberedProof(number),
        }
    }
}

/// The reason why a file isn't read.
#[derive(Debug, Drop, Error)]
pub enum ReadFault {
    #[error("{input}: cannot read: {path}: {reason}")]
    CannotRead {
        input: Input,
        path: String,
        reason: io::Error,
    },
    #[error("{input}: too long: {path}")]
    TooLong {
        input: Input,
        path: String,
    },
    #[error("{0}: cannot read: -: standard input is read already")]
    ReadTwice(Input),
}

/// A file that a command reads, by its path.
#[derive(Clone, Copy, Debug)]
pub struct InputFile<'a> {
    pub input: Input,
    pub path: &'a str,
}

impl<'a> InputFile<'a> {
    /// Returns the fault of the file, for the system's reason.
    pub fn unread(self, alloc: Global, reason: io::Error) -> CommandFault {
        if reason.kind() == ErrorKind::OutOfMemory {
            return CommandFault::OutOfMemory;
        }
        match String::from_str(alloc, self.path) {
            Ok(path) => CommandFault::Read(ReadFault::CannotRead {
                input: self.input,
                path,
                reason,
            }),
            Err(_) => CommandFault::OutOfMemory,
        }
    }

    /// Returns the fault of the file if the system can't look at it.
    pub fn unseen(self, alloc: Global, fault: OutputFault) -> CommandFault {
        match fault {
            OutputFault::System(reason) => self.unread(alloc, reason),
            _ => CommandFault::OutOfMemory,
        }
    }

    fn too_long(self, alloc: Global) -> CommandFault {
        match String::from_str(alloc, self.path) {
            Ok(path) => CommandFault::Read(ReadFault::TooLong {
                input: self.input,
                path,
            }),
            Err(_) => CommandFault::OutOfMemory,
        }
    }

    /// Reads all bytes of the file.
    pub fn read<R: World>(self, rt: &R) -> Result<Vec<u8>, CommandFault> {
        let alloc = rt.alloc();
        let file = match open_input(rt, self.path) {
            Ok(file) => file,
            Err(reason) => return Err(self.unread(alloc, reason)),
        };
        let mut noting = Noting::new(file);
        match read_whole(alloc, &mut Reading::new(&mut noting), MAX_FILE_BYTES) {
            Ok(bytes) => Ok(bytes),
            Err(WholeFault::Read) => {
                let reason = noting.reason().unwrap_or(io::Error::from(ErrorKind::Other));
                Err(self.unread(alloc, reason))
            }
            Err(WholeFault::TooLong) => Err(self.too_long(alloc)),
            Err(WholeFault::OutOfMemory) => Err(CommandFault::OutOfMemory),
        }
    }
}

/// Returns the bytes of a file, if there is one.
pub fn read_if_given<R: World>(
    rt: &R,
    file: Option<InputFile<'_>>,
) -> Result<Option<Vec<u8>>, CommandFault> {
    match file {
        Some(file) => Ok(Some(file.read(rt)?)),
        None => Ok(None),
    }
}

/// The files that a command reads, in the order of the command line.
#[derive(Debug, Drop)]
pub struct Inputs<'a> {
    files: Vec<InputFile<'a>>,
    has_standard: bool,
}

impl<'a> Inputs<'a> {
    /// Returns no files.
    pub fn new(alloc: Global) -> Inputs<'a> {
        Inputs {
            files: Vec::new(alloc),
            has_standard: false,
        }
    }

    /// Returns a copy of the files.
    pub fn copy(&self) -> Result<Inputs<'a>, AllocError> {
        Ok(Inputs {
            files: self.files.clone()?,
            has_standard: self.has_standard,
        })
    }

    /// Adds a file. Refuses standard input if it is there already.
    pub fn add(&mut self, input: Input, path: &'a str) -> Result<InputFile<'a>, CommandFault> {
        if path == STANDARD {
            if self.has_standard {
                return Err(CommandFault::Read(ReadFault::ReadTwice(input)));
            }
            self.has_standard = true;
        }
        let file = InputFile { input, path };
        self.files.push(file).map_err(AllocError::from)?;
        Ok(file)
    }

    /// Adds a file, if there is one.
    pub fn add_given(
        &mut self,
        input: Input,
        path: Option<&'a str>,
    ) -> Result<Option<InputFile<'a>>, CommandFault> {
        match path {
            Some(path) => Ok(Some(self.add(input, path)?)),
            None => Ok(None),
        }
    }

    /// Adds proofs.
    pub fn add_proofs(&mut self, paths: &[&'a str], naming: Naming) -> Result<(), CommandFault> {
        let mut number: u64 = 0;
        for path in paths {
            number = number.saturating_add(1);
            self.add(naming.input(number), path)?;
        }
        Ok(())
    }

    /// Returns the files.
    pub fn files(&self) -> &[InputFile<'a>] {
        self.files.as_slice()
    }
}
