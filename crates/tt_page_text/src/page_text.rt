//! The text of a page, of which a window is in memory.

ghost use Rattle.std.specs.Prelude.{◌≡◌, ◌==◌, ◌+◌, ◌≤◌, ◌++◌, length, vec_capacity, IfOk};
ghost use Rattle.std.specs.Fmt.{decimal};
ghost use Rattle.tt_page_text.specs.Puts.{put_text, too_many, total_of, window};

use itoa::Buffer;
use std::alloc::{AllocError, Global};
use std::marker::Model;

/// A page has at most this many bytes.
pub const MAX_PAGE_BYTES: usize = 67_108_864;

/// A page is written in pieces of at most this many bytes.
pub const PAGE_PIECE_BYTES: usize = 4_194_304;

/// A text with this many bytes is too large for a page.
const TOO_MANY_BYTES: usize = MAX_PAGE_BYTES + 1;

/// The text of a page as it grows, of which a window is in memory. Bytes before the window and behind it are only counted.
#[derive(Drop)]
pub struct PageText {
    /// How many more bytes come before the window.
    before: usize,
    /// The window has at most this many bytes.
    size: usize,
    /// How many more bytes are taken; further ones change nothing.
    left: usize,
    /// The bytes in the window so far. Their memory never grows.
    bytes: Vec<u8>,
}

impl Model for PageText {
    ghost use Rattle.std.specs.Prelude.{◌≤◌, vec_len, vec_capacity};
    ghost use Rattle.tt_page_text.specs.Windowed.{PageState};

    ghost Value = { PageState };

    ghost view = { λ s. record { before = s.before; size = s.size; left = s.left; bytes = s.bytes.items } };

    ghost invariant = { λ s. (vec_len s.bytes ≤ s.size) × (s.size ≤ vec_capacity s.bytes) };
}

impl PageText {
    /// Returns an empty text, with memory for a window of this size at its beginning. Bytes are taken until they are too many for a page.
    pub fn new(alloc: Global, size: usize) -> Result<PageText, AllocError>
        ensures { IfOk result (λ text. text ≡ window 0 size too_many) }
    {
        let bytes = Vec::with_capacity(alloc, size)?;
        Ok(PageText {
            before: 0,
            size,
            left: TOO_MANY_BYTES,
            bytes,
        })
    }

    /// Makes the text empty, with its window at this byte. At most so many bytes of the text are taken.
    pub fn restart(&mut self, from: usize, left: usize)
        ensures { self.new ≡ window from self.old.size left }
    {
        self.bytes.clear();
        self.before = from;
        self.left = left;
    }

    /// Checks whether further bytes change nothing.
    pub fn is_full(&self) -> bool
        ensures { result ≡ (self.now.left == 0) }
    {
        self.left == 0
    }

    /// Returns the number of bytes that were put into a new text, or `None` if they are too many for a page.
    pub fn total(&self) -> Option<usize>
        ensures { result ≡ total_of self.now }
    {
        if self.is_full() {
            None
        } else {
            Some(TOO_MANY_BYTES.saturating_sub(self.left))
        }
    }

    /// Returns the bytes in the window.
    pub fn bytes(&self) -> &[u8]
        ensures { result.now ≡ self.now.bytes }
    {
        self.bytes.as_slice()
    }

    /// Returns the bytes in the window.
    pub fn into_bytes(self) -> Vec<u8>
        ensures { result.items ≡ self.bytes }
    {
        self.bytes
    }
}

/// Appends bytes for which there is memory.
fn append(bytes: &mut Vec<u8>, more: &[u8])
    requires { length bytes.old.items + length more.now ≤ vec_capacity bytes.old }
    ensures items { bytes.new.items ≡ bytes.old.items ++ more.now }
    ensures capacity { vec_capacity bytes.old ≤ vec_capacity bytes.new }
{
    if bytes.extend_from_slice(more).is_err() {
        unreachable!();
    }
}

/// Appends the bytes of a token.
pub fn put_token(out: &mut PageText, token: &[u8])
    ensures { out.new ≡ put_text out.old token.now }
{
    let (taken, _) = token.split_at(out.left.min(token.len()));
    let (_, behind) = taken.split_at(out.before.min(taken.len()));
    let room = out.size - out.bytes.len();
    let (seen, _) = behind.split_at(room.min(behind.len()));
    append(&mut out.bytes, seen);
    out.before = out.before.saturating_sub(taken.len());
    out.left -= taken.len();
}

/// Appends the digits of a number, without leading zeros.
pub fn put_number(out: &mut PageText, number: u64)
    ensures { out.new ≡ put_text out.old (decimal number) }
{
    put_token(out, Buffer::new().format(number).as_bytes());
}
