//! Names in a report.

ghost use Rattle.std.specs.Prelude.{◌∷◌, flat_map, chars, encode_utf8};
ghost use Rattle.tt_report.specs.Puts.{Puts};
ghost use Rattle.tt_report.specs.Names.{letter_text, shown};

use crate::output::Output;
use tt_text::Sink;

/// The letter that is shown in place of bytes that are no text.
const REPLACEMENT: char = '\u{FFFD}';

/// Puts a letter in UTF-8.
fn put_plain<W: Sink>(out: &mut Output<'_, W>, letter: char)
    ensures { Puts W.contents W.has_failed out.old out.new (encode_utf8 letter) }
{
    let mut bytes = [0u8; 4];
    out.put(letter.encode_utf8(&mut bytes).as_bytes());
}

/// Puts a letter; a control character becomes a question mark, so that no name controls a terminal.
fn put_letter<W: Sink>(out: &mut Output<'_, W>, letter: char)
    ensures { Puts W.contents W.has_failed out.old out.new (letter_text letter) }
{
    if letter.is_control() {
        out.put(b"?");
    } else {
        put_plain(out, letter);
    }
}

/// Puts the letters of a text.
fn put_letters<W: Sink>(out: &mut Output<'_, W>, text: &str)
    ensures { Puts W.contents W.has_failed out.old out.new (flat_map letter_text (chars text.now)) }
{
    for letter in text.chars() {
        put_letter(out, letter);
    }
}

/// Puts a name.
fn put_shown<W: Sink>(out: &mut Output<'_, W>, name: &[u8])
    ensures { Puts W.contents W.has_failed out.old out.new (shown name.now) }
{
    for chunk in name.utf8_chunks() {
        put_letters(out, chunk.valid());
        if !chunk.invalid().is_empty() {
            put_letter(out, REPLACEMENT);
        }
    }
}

/// Puts a space and a name.
pub fn put_next_name<W: Sink>(out: &mut Output<'_, W>, name: &[u8])
    ensures { Puts W.contents W.has_failed out.old out.new (32 ∷ shown name.now) }
{
    out.put(b" ");
    put_shown(out, name);
}
