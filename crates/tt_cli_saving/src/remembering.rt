//! A writer that remembers why a write failed.

use std::io;
use std::io::{Error, ErrorKind, Write};

/// A writer that remembers why a write failed.
pub struct Remembering<'o, O: Write> {
    out: &'o mut O,
    reason: Option<Error>,
}

impl<'o, O: Write> Drop for Remembering<'o, O> {
    fn drop(self) {
        let Remembering { out: _, reason: _ } = self;
    }
}

impl<'o, O: Write> Remembering<'o, O> {
    /// Returns a writer to which nothing has been written.
    pub fn new(out: &'o mut O) -> Remembering<'o, O> {
        Remembering { out, reason: None }
    }

    /// Returns why the last failed write failed: that nothing was taken, if the system gave no reason.
    pub fn reason(&self) -> Error {
        match self.reason {
            Some(reason) => reason,
            None => Error::from(ErrorKind::WriteZero),
        }
    }
}

impl<'o, O: Write> Write for Remembering<'o, O> {
    fn write(&mut self, buffer: &[u8]) -> io::Result<usize> {
        match self.out.write(buffer) {
            Ok(count) => Ok(count),
            Err(reason) => {
                self.reason = Some(reason);
                Err(reason)
            }
        }
    }

    fn flush(&mut self) -> io::Result<()> {
        self.out.flush()
    }
}
