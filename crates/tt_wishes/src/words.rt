//! The words of a line.

ghost use Rattle.std.specs.Prelude.{◌≡◌, ◌+◌, ◌<◌, ◌^◌, ◌∷◌, [], length, MatchOption};
ghost use Rattle.tt_text.specs.Tokens.{place};
ghost use Rattle.tt_wishes.specs.Lines.{words_of};

use crate::lines::Line;
use std::marker::Model;
use tt_text::{Token, Tokens};

/// The words of a line that are still to come. Their offsets are counted from the beginning of the text.
#[derive(Drop)]
pub struct Words<'a> {
    tokens: Tokens<'a>,
    at: usize,
}

impl<'a> Model for Words<'a> {
    ghost use Rattle.std.specs.Prelude.{List, map};
    ghost use Rattle.tt_text.specs.Tokens.{Placed};
    ghost use Rattle.tt_wishes.specs.Inner.Offsets.{AreInText};
    ghost use Rattle.tt_wishes.specs.Lines.{moved_by};

    ghost Value = { List Placed };

    ghost view = { λ a. map (moved_by a.at) a.tokens };

    ghost invariant = { λ a. AreInText a.at a.tokens };
}

impl<'a> Words<'a> {
    /// Creates the sequence of all words of a line.
    pub fn new(line: Line<'a>) -> Self
        requires { line.at + length line.text.now < 2 ^ 64 }
        ensures { result ≡ words_of line.entry.at line.entry.text.now }
    {
        Words {
            tokens: Tokens::new(line.text),
            at: line.at,
        }
    }

    /// Returns the next word, or `None` if no word is left.
    #[tactic(auto, using(crate::proofs::Offsets::first_in_text))]
    pub fn next(&mut self) -> Option<Token<'a>>
        ensures { MatchOption result ((self.old ≡ []) × (self.new ≡ [])) (λ t. self.old ≡ place t ∷ self.new) }
    {
        let Some(token) = self.tokens.next() else {
            return None;
        };
        Some(Token {
            bytes: token.bytes,
            at: self.at + token.at,
        })
    }
}
