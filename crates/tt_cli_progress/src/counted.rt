//! A proof that shows the progress of its reading.

use crate::opened::Noting;
use crate::ticker::Ticker;
use std::cell::RefCell;
use std::io;
use std::io::{Error, Read, Write};
use std::rt::Clock;

/// A proof that shows how many of its bytes have been read.
pub struct Counted<'c, 't, F: Read, R: Clock, E: Write> {
    file: Noting<F>,
    number: Option<u64>,
    bytes: u64,
    size: Option<u64>,
    ticker: &'c RefCell<Ticker<'t, R, E>>,
}

impl<'c, 't, F: Read + Drop, R: Clock, E: Write> Drop for Counted<'c, 't, F, R, E> {
    fn drop(self) {
        let Counted {
            file: _,
            number: _,
            bytes: _,
            size: _,
            ticker: _,
        } = self;
    }
}

impl<'c, 't, F: Read, R: Clock, E: Write> Counted<'c, 't, F, R, E> {
    /// Returns a file of this many bytes, if that is known, and its number if it is one of several.
    pub fn new(
        file: F,
        number: Option<u64>,
        size: Option<u64>,
        ticker: &'c RefCell<Ticker<'t, R, E>>,
    ) -> Self {
        Counted {
            file: Noting::new(file),
            number,
            bytes: 0,
            size,
            ticker,
        }
    }

    /// Returns why a read failed, if one did.
    pub fn reason(&self) -> Option<Error> {
        self.file.reason()
    }

    fn show(&self) {
        if let Ok(mut ticker) = self.ticker.try_borrow_mut() {
            ticker.show_bytes(self.number, self.bytes, self.size);
        }
    }
}

impl<'c, 't, F: Read, R: Clock, E: Write> Read for Counted<'c, 't, F, R, E> {
    fn read(&mut self, buffer: &mut [u8]) -> io::Result<usize> {
        let count = self.file.read(buffer)?;
        self.bytes = self.bytes.saturating_add(count as u64);
        self.show();
        Ok(count)
    }
}
