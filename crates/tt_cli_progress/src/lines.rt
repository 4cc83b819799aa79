//! Lines for a terminal.

use bstr::ByteSlice;
use std::fmt;

/// Lines for a terminal, read as UTF-8. A letter that controls a terminal is shown as `?`.
#[derive(Clone, Copy)]
pub struct ShownLines<'a> {
    pub bytes: &'a [u8],
}

impl<'a> fmt::Display for ShownLines<'a> {
    fn fmt<W: fmt::Write>(&self, f: &mut fmt::Formatter<W>) -> fmt::Result {
        for letter in self.bytes.chars() {
            let is_harmless = letter == '\n' || !letter.is_control();
            f.write_char(if is_harmless { letter } else { '?' })?;
        }
        Ok(())
    }
}
