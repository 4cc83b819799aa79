//! Numbers in a readable form.

use std::fmt;

/// A number with a comma before each group of three of its last nine digits.
#[derive(Clone, Copy, Debug)]
pub struct Grouped(pub u64);

impl fmt::Display for Grouped {
    fn fmt<W: fmt::Write>(&self, f: &mut fmt::Formatter<W>) -> fmt::Result {
        let number = self.0;
        let (billions, millions, thousands, rest) = (
            number / 1_000_000_000,
            number / 1_000_000 % 1_000,
            number / 1_000 % 1_000,
            number % 1_000,
        );
        if billions > 0 {
            return write!(f, "{billions},{millions:03},{thousands:03},{rest:03}");
        }
        if millions > 0 {
            return write!(f, "{millions},{thousands:03},{rest:03}");
        }
        if thousands > 0 {
            return write!(f, "{thousands},{rest:03}");
        }
        write!(f, "{rest}")
    }
}
