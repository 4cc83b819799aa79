//! A page that shows the progress of its writing.

use crate::ticker::Ticker;
use std::cell::RefCell;
use std::io;
use std::io::{Error, Write};
use std::rt::Clock;

/// A file that shows how many bytes of a page have been written to it.
pub struct Written<'c, 't, F: Write, R: Clock, E: Write> {
    file: &'c mut F,
    fault: Option<Error>,
    bytes: u64,
    ticker: &'c RefCell<Ticker<'t, R, E>>,
}

impl<'c, 't, F: Write, R: Clock, E: Write> Drop for Written<'c, 't, F, R, E> {
    fn drop(self) {
        let Written {
            file: _,
            fault: _,
            bytes: _,
            ticker: _,
        } = self;
    }
}

impl<'c, 't, F: Write, R: Clock, E: Write> Written<'c, 't, F, R, E> {
    /// Returns a file to which nothing has been written.
    pub fn new(file: &'c mut F, ticker: &'c RefCell<Ticker<'t, R, E>>) -> Self {
        Written {
            file,
            fault: None,
            bytes: 0,
            ticker,
        }
    }

    /// Returns why a write failed, if one did.
    pub fn fault(&self) -> Option<Error> {
        self.fault
    }
}

impl<'c, 't, F: Write, R: Clock, E: Write> Write for Written<'c, 't, F, R, E> {
    fn write(&mut self, buffer: &[u8]) -> io::Result<usize> {
        let count = match self.file.write(buffer) {
            Ok(count) => count,
            Err(fault) => {
                self.fault = Some(fault);
                return Err(fault);
            }
        };
        self.bytes = self.bytes.saturating_add(count as u64);
        if let Ok(mut ticker) = self.ticker.try_borrow_mut() {
            ticker.show_written(self.bytes);
        }
        Ok(count)
    }

    fn flush(&mut self) -> io::Result<()> {
        self.file.flush()
    }
}
