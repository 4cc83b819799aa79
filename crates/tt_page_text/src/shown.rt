//! Names as they appear in a page.

ghost use Rattle.std.specs.Prelude.{◌≡◌, flat_map, chars, encode_utf8};
ghost use Rattle.std.specs.Str.{IsUtf8};
ghost use Rattle.tt_page_text.specs.Puts.{put_text};
ghost use Rattle.tt_page_text.specs.Shown.{letter_text, shown, IsHarmless};

use crate::page_text::{PageText, put_token};

/// The letter that is shown in place of bytes that are no text, and of control characters.
const REPLACEMENT: char = '\u{FFFD}';

/// Appends a letter in UTF-8.
fn put_plain(out: &mut PageText, letter: char)
    ensures { out.new ≡ put_text out.old (encode_utf8 letter) }
{
    let mut bytes = [0u8; 4];
    put_token(out, letter.encode_utf8(&mut bytes).as_bytes());
}

/// Appends the text that a page has for a letter.
#[tactic(auto, unfolding(crate::specs::Shown::letter_text))]
fn put_letter(out: &mut PageText, letter: char)
    ensures { out.new ≡ put_text out.old (letter_text letter) }
{
    match letter {
        '&' => put_token(out, b"&amp;"),
        '<' => put_token(out, b"&lt;"),
        '>' => put_token(out, b"&gt;"),
        '"' => put_token(out, b"&quot;"),
        '\'' => put_token(out, b"&#39;"),
        letter if letter.is_control() => put_plain(out, REPLACEMENT),
        letter => put_plain(out, letter),
    }
}

/// Appends the letters of a text.
#[tactic(auto, using(crate::proofs::Growing::puts))]
fn put_letters(out: &mut PageText, text: &str)
    ensures { out.new ≡ put_text out.old (flat_map letter_text (chars text.now)) }
{
    for letter in text.chars() {
        put_letter(out, letter);
    }
}

/// Appends the text that a page has for a name. It is UTF-8, and has nothing that HTML takes for markup.
pub fn put_shown(out: &mut PageText, name: &[u8])
    ensures puts { out.new ≡ put_text out.old (shown name.now) }
    ensures harmless { IsHarmless (shown name.now) }
    ensures utf8 { IsUtf8 (shown name.now) }
{
    for chunk in name.utf8_chunks() {
        put_letters(out, chunk.valid());
        if !chunk.invalid().is_empty() {
            put_letter(out, REPLACEMENT);
        }
    }
}
