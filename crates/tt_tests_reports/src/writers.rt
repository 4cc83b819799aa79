//! A writer that stops once.

use std::alloc::Global;
use std::io;
use std::io::{Error, ErrorKind, Write};

/// A writer that takes nothing in one of its writes, numbered from 0: that write fails with the error, or returns 0.
#[derive(Drop)]
pub struct StoppingOnce {
    bytes: Vec<u8>,
    writes: usize,
    /// How many bytes the other writes take at most.
    most: usize,
    stops_at: usize,
    error: Option<ErrorKind>,
}

impl StoppingOnce {
    /// Returns a writer that has taken nothing.
    pub fn new(alloc: Global, most: usize, stops_at: usize, error: Option<ErrorKind>) -> Self {
        StoppingOnce {
            bytes: Vec::new(alloc),
            writes: 0,
            most,
            stops_at,
            error,
        }
    }

    /// Returns a writer one of whose writes fails.
    pub fn failing(alloc: Global, most: usize, stops_at: usize) -> Self {
        StoppingOnce::new(alloc, most, stops_at, Some(ErrorKind::BrokenPipe))
    }

    /// Returns the bytes that were taken.
    pub fn bytes(&self) -> &[u8] {
        &self.bytes
    }

    /// Returns the number of writes.
    pub fn writes(&self) -> usize {
        self.writes
    }
}

impl Write for StoppingOnce {
    fn write(&mut self, bytes: &[u8]) -> io::Result<usize> {
        let write = self.writes;
        self.writes = write.saturating_add(1);
        if write == self.stops_at {
            return match self.error {
                Some(kind) => Err(Error::from(kind)),
                None => Ok(0),
            };
        }
        let count = bytes.len().min(self.most);
        self.bytes.extend_from_slice(&bytes[..count])?;
        Ok(count)
    }

    fn flush(&mut self) -> io::Result<()> {
        Ok(())
    }
}
