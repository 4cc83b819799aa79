//! What tokens are, defined without a reader.

ghost use Rattle.std.specs.Prelude.{◌≡◌, ℕ, List};
ghost use Rattle.tt_text.specs.Places.{HasTokens};
ghost use Rattle.tt_text.specs.Tokens.{Placed, tokens_of};

/// The tokens read from a text, from left to right, are exactly its tokens: runs of bytes that are not separators, each at
/// its offset, with separators or an end of the text on both sides.
pub fn tokens_are_apart()
    ensures read { (bytes : List ℕ) → HasTokens 0 bytes (tokens_of bytes) }
    ensures only { (bytes : List ℕ) (tokens : List Placed) → HasTokens 0 bytes tokens → tokens_of bytes ≡ tokens }
{}
