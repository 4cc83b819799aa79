//! The tokens of a text, from left to right.

ghost use Rattle.std.specs.Prelude.{◌≡◌, ◌≤◌, ◌+◌, ◌∷◌, [], length, drop, MatchOption, IfSome};
ghost use Rattle.std.specs.List.{prefix_len};
ghost use Rattle.tt_text.specs.Plain.{is_plain};
ghost use Rattle.tt_text.specs.Tokens.{is_separator, in_token, tokens_of, place, IsToken};

use std::marker::Model;

/// A maximal run of bytes that are not separators, and its offset in the text.
#[derive(Clone, Copy, Debug)]
pub struct Token<'a> {
    pub bytes: &'a [u8],
    pub at: usize,
}

/// The tokens of a text that are still to come.
#[derive(Drop)]
pub struct Tokens<'a> {
    rest: &'a [u8],
    at: usize,
}

impl<'a> Model for Tokens<'a> {
    ghost use Rattle.std.specs.Prelude.{◌+◌, ◌^◌, ◌<◌, List, false, length};
    ghost use Rattle.tt_text.specs.Tokens.{Placed, tokens_from};

    ghost Value = { List Placed };

    ghost view = { λ a. tokens_from false a.at a.rest.now };

    ghost invariant = { λ a. a.at + length a.rest.now < 2 ^ 64 };
}

/// Returns whether a byte separates tokens.
pub fn is_space(byte: u8) -> bool
    ensures { result ≡ is_separator byte }
{
    byte == b' ' || matches!(byte, b'\t'..=b'\r')
}

/// Counts the separators that the bytes begin with.
pub fn gap_len(bytes: &[u8]) -> usize
    ensures len { result ≡ prefix_len is_separator bytes.now }
    ensures within { result ≤ length bytes.now }
{
    // Mostly the gap is one space or the end of a line.
    if bytes.len() > 1 && bytes[1] > b' ' && (bytes[0] == b' ' || bytes[0] == b'\n') {
        return 1;
    }
    let mut len = 0;
    while len < bytes.len() && is_space(bytes[len]) {
        len += 1;
    }
    len
}

/// Counts the bytes that are not separators at the front of the bytes.
pub fn token_len(bytes: &[u8]) -> usize
    ensures len { result ≡ prefix_len in_token bytes.now }
    ensures within { result ≤ length bytes.now }
{
    for (i, byte) in bytes.iter().enumerate() {
        if is_space(*byte) {
            return i;
        }
    }
    bytes.len()
}

/// Returns the end of the run of bytes above the space that begins at `from`.
pub fn plain_end(bytes: &[u8], from: usize) -> usize
    requires { from ≤ length bytes.now }
    ensures end { result ≡ from + prefix_len is_plain (drop from bytes.now) }
    ensures within { result ≤ length bytes.now }
{
    let mut end = from;
    while end < bytes.len() && bytes[end] > b' ' {
        end += 1;
    }
    end
}

impl<'a> Tokens<'a> {
    /// Creates the sequence of all tokens of a text.
    pub fn new(bytes: &'a [u8]) -> Self
        ensures { result ≡ tokens_of bytes.now }
    {
        Tokens { rest: bytes, at: 0 }
    }

    /// Returns the next token, or `None` if no token is left.
    pub fn next(&mut self) -> Option<Token<'a>>
        ensures gives { MatchOption result ((self.old ≡ []) × (self.new ≡ [])) (λ t. self.old ≡ place t ∷ self.new) }
        ensures token { IfSome result (λ t. IsToken t.bytes.now) }
    {
        let gap = gap_len(self.rest);
        let (_, begun) = self.rest.split_at(gap);
        let at = self.at + gap;
        let len = token_len(begun);
        let (bytes, rest) = begun.split_at(len);
        self.rest = rest;
        self.at = at + len;
        if len == 0 {
            return None;
        }
        Some(Token { bytes, at })
    }
}
