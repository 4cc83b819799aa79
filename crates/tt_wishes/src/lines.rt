//! The lines of a text.

ghost use Rattle.std.specs.Prelude.{◌≡◌, ◌+◌, ◌≤◌, ◌<◌, ◌^◌, ◌∷◌, [], length, drop, MatchOption, IfSome};
ghost use Rattle.std.specs.List.{prefix_len};
ghost use Rattle.tt_wishes.specs.Lines.{is_in_line, row_of, rows_of};

use std::marker::Model;

/// A line without its line feed, and its offset in the text.
#[derive(Clone, Copy, Debug)]
pub struct Line<'a> {
    pub text: &'a [u8],
    pub at: usize,
}

/// The lines of a text that are still to come.
#[derive(Drop)]
pub struct Lines<'a> {
    rest: &'a [u8],
    at: usize,
    over: bool,
}

impl<'a> Model for Lines<'a> {
    ghost use Rattle.std.specs.Prelude.{◌+◌, ◌^◌, ◌<◌, List, length};
    ghost use Rattle.tt_wishes.specs.Lines.{Row, rows_left};

    ghost Value = { List Row };

    ghost view = { λ a. rows_left a.over a.at a.rest.now };

    ghost invariant = { λ a. a.at + length a.rest.now < 2 ^ 64 };
}

/// Counts the bytes before the first line feed.
fn line_len(bytes: &[u8]) -> usize
    ensures len { result ≡ prefix_len is_in_line bytes.now }
    ensures within { result ≤ length bytes.now }
{
    for (i, byte) in bytes.iter().enumerate() {
        if *byte == b'\n' {
            return i;
        }
    }
    bytes.len()
}

/// Returns the bytes after the first one, if there is one.
#[tactic(auto, using(crate::proofs::LineLaws::nothing_dropped))]
fn after_first(bytes: &[u8]) -> &[u8]
    ensures { result.now ≡ drop 1 bytes.now }
{
    match bytes.split_first() {
        None => bytes,
        Some((_, rest)) => rest,
    }
}

impl<'a> Lines<'a> {
    /// Creates the sequence of all lines of a text.
    pub fn new(bytes: &'a [u8]) -> Self
        ensures { result ≡ rows_of bytes.now }
    {
        Lines {
            rest: bytes,
            at: 0,
            over: false,
        }
    }

    /// Returns the next line, or `None` if no line is left.
    #[tactic(auto, using(crate::proofs::LineLaws::left_shorter))]
    pub fn next(&mut self) -> Option<Line<'a>>
        ensures gives { MatchOption result ((self.old ≡ []) × (self.new ≡ [])) (λ l. self.old ≡ row_of l.at l.text.now ∷ self.new) }
        ensures within { IfSome result (λ l. l.at + length l.text.now < 2 ^ 64) }
    {
        if self.over {
            return None;
        }
        let at = self.at;
        let len = line_len(self.rest);
        let (text, behind) = self.rest.split_at(len);
        let after = after_first(behind);
        let over = behind.is_empty();
        self.at = at + (self.rest.len() - after.len());
        self.over = over;
        self.rest = after;
        Some(Line { text, at })
    }
}
