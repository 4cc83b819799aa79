//! Names in a string of a style.

ghost use Rattle.std.specs.Prelude.{◌≡◌, flat_map, chars, encode_utf8};
ghost use Rattle.tt_page_text.specs.Puts.{put_text};
ghost use Rattle.tt_page_text.specs.Quoted.{quoted_letter, quoted, IsQuoted};

use crate::page_text::{PageText, put_token};

/// The letter that replaces bytes that are no text, and control characters.
const REPLACEMENT: char = '\u{FFFD}';

/// Appends a letter in UTF-8.
fn put_plain(out: &mut PageText, letter: char)
    ensures { out.new ≡ put_text out.old (encode_utf8 letter) }
{
    let mut bytes = [0u8; 4];
    put_token(out, letter.encode_utf8(&mut bytes).as_bytes());
}

/// Appends the text that a string has for a letter.
#[tactic(auto, unfolding(crate::specs::Quoted::quoted_letter))]
fn put_quoted_letter(out: &mut PageText, letter: char)
    ensures { out.new ≡ put_text out.old (quoted_letter letter) }
{
    match letter {
        '"' => put_token(out, b"\\22 "),
        '&' => put_token(out, b"\\26 "),
        '\'' => put_token(out, b"\\27 "),
        '<' => put_token(out, b"\\3c "),
        '>' => put_token(out, b"\\3e "),
        '\\' => put_token(out, b"\\5c "),
        letter if letter.is_control() => put_plain(out, REPLACEMENT),
        letter => put_plain(out, letter),
    }
}

/// Appends the letters of a text.
#[tactic(auto, using(crate::proofs::Growing::puts))]
fn put_quoted_letters(out: &mut PageText, text: &str)
    ensures { out.new ≡ put_text out.old (flat_map quoted_letter (chars text.now)) }
{
    for letter in text.chars() {
        put_quoted_letter(out, letter);
    }
}

/// Appends the text that a string between double quotes has for a name. It ends neither the string nor the style, and begins no escape.
pub fn put_quoted(out: &mut PageText, name: &[u8])
    ensures puts { out.new ≡ put_text out.old (quoted name.now) }
    ensures inert { IsQuoted (quoted name.now) }
{
    for chunk in name.utf8_chunks() {
        put_quoted_letters(out, chunk.valid());
        if !chunk.invalid().is_empty() {
            put_quoted_letter(out, REPLACEMENT);
        }
    }
}
