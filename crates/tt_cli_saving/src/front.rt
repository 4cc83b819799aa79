//! The first line of a proof that holds of the timetables that keep wishes.

ghost use Rattle.std.specs.Prelude.{◌≤◌, length};

use std::io;
use std::io::Read;

/// The first line of such a proof, with its end. No other proof begins so, so that nobody takes its bound for the instance's.
pub const WISHES_LINE: [u8; 7] = *b"wishes\n";

/// The first bytes of a file that are still to be given.
#[derive(Clone, Copy, Debug)]
pub struct Front {
    bytes: [u8; 7],
    given: usize,
    read: usize,
}

impl Front {
    /// Reads as many bytes as the line has. If they are the line, none of them is given.
    pub fn read_from<F: Read>(file: &mut F) -> io::Result<Front> {
        let mut front = Front {
            bytes: [0; 7],
            given: 0,
            read: 0,
        };
        for place in 0..WISHES_LINE.len() {
            let mut byte = [0];
            if file.read(&mut byte)? == 0 {
                return Ok(front);
            }
            front.bytes[place] = byte[0];
            front.read = place + 1;
        }
        if front.bytes == WISHES_LINE {
            front.given = front.read;
        }
        Ok(front)
    }

    /// Gives the next bytes, as many as the buffer takes, and returns their number.
    pub fn give(&mut self, buffer: &mut [u8]) -> usize
        ensures { result ≤ length buffer.new }
    {
        let rest = self.bytes.get(self.given..self.read).unwrap_or(&[]);
        let count = buffer.len().min(rest.len());
        buffer[..count].copy_from_slice(&rest[..count]);
        self.given = self.given.saturating_add(count);
        count
    }
}
