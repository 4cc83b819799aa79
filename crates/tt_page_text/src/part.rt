//! Pieces of a page, in turn.

ghost use Rattle.std.specs.Prelude.{◌≡◌};
ghost use Rattle.tt_page_text.specs.Markup.{part_text, parts_text, counted};
ghost use Rattle.tt_page_text.specs.Puts.{put_text};

use crate::page_text::{PageText, put_number, put_token};
use crate::shown::put_shown;

/// A piece of a page.
#[derive(Clone, Copy)]
pub enum Part<'a> {
    /// Markup and words of the program's own.
    Text(&'a str),
    Number(u32),
    Count(u64),
    /// A name of the instance, which is never taken for markup.
    Name(&'a [u8]),
}

fn put_part(out: &mut PageText, part: Part<'_>)
    ensures { out.new ≡ put_text out.old (part_text part.entry) }
{
    match part {
        Part::Text(text) => put_token(out, text.as_bytes()),
        Part::Number(number) => put_number(out, u64::from(number)),
        Part::Count(count) => put_number(out, count),
        Part::Name(name) => put_shown(out, name),
    }
}

/// Appends pieces.
#[tactic(auto, using(crate::proofs::Growing::puts))]
pub fn put(out: &mut PageText, parts: &[Part<'_>])
    ensures { out.new ≡ put_text out.old (parts_text parts.now) }
{
    for part in parts {
        put_part(out, *part);
    }
}

/// Appends a number between two texts, unless it is 0.
#[tactic(auto, using(crate::proofs::Growing::puts))]
pub fn put_counted<'x>(out: &mut PageText, before: &'x str, number: u64, behind: &'x str)
    ensures { out.new ≡ put_text out.old (counted before.now number behind.now) }
{
    if number == 0 {
        return;
    }
    put(
        out,
        &[Part::Text(before), Part::Count(number), Part::Text(behind)],
    );
}
