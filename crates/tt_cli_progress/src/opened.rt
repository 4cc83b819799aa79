//! Files that are open for reading.

use crate::world::World;
use std::fs::OpenFile;
use std::io::{Error, Read};
use std::{fs, io};
use tt_cli_files::STANDARD;

/// A file that is open for reading, or standard input.
#[derive(Drop)]
pub enum Opened<F, S> {
    File(F),
    Standard(S),
}

impl<F: Read, S: Read> Read for Opened<F, S> {
    fn read(&mut self, buffer: &mut [u8]) -> io::Result<usize> {
        match self {
            Opened::File(file) => file.read(buffer),
            Opened::Standard(stream) => stream.read(buffer),
        }
    }
}

impl<F: OpenFile, S> Opened<F, S> {
    /// Returns the number of bytes of a file; `None` if it isn't known.
    pub fn size(&self) -> Option<u64> {
        match self {
            Opened::File(file) => match file.metadata() {
                Ok(found) if found.is_file() => Some(found.len()),
                _ => None,
            },
            Opened::Standard(_) => None,
        }
    }
}

/// Opens an input: the file of a path, or standard input.
pub fn open_input<R: World>(rt: &R, path: &str) -> io::Result<Opened<R::File, R::Reader>> {
    if path == STANDARD {
        return Ok(Opened::Standard(rt.reader()));
    }
    Ok(Opened::File(fs::open(rt, path)?))
}

/// A reader that remembers why a read failed.
#[derive(Drop)]
pub struct Noting<F> {
    file: F,
    reason: Option<Error>,
}

impl<F> Noting<F> {
    /// Returns a reader that has read nothing.
    pub fn new(file: F) -> Noting<F> {
        Noting { file, reason: None }
    }

    /// Returns why a read failed, if one did.
    pub fn reason(&self) -> Option<Error> {
        self.reason
    }
}

impl<F: Read> Read for Noting<F> {
    fn read(&mut self, buffer: &mut [u8]) -> io::Result<usize> {
        match self.file.read(buffer) {
            Ok(count) => Ok(count),
            Err(reason) => {
                self.reason = Some(reason);
                Err(reason)
            }
        }
    }
}
