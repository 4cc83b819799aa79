//! Parts of a line after its first token, each after a space.

ghost use Rattle.std.specs.Prelude.{◌≡◌, ◌++◌, ◌∷◌, [], IfSome, OnOk, All};
ghost use Rattle.tt_text.specs.Pieces.{Number, Index};
ghost use Rattle.tt_proof_read.specs.Spelling.{given_piece, who_piece, pattern_pieces, listed_pieces, version_text};
ghost use Rattle.tt_proof_write.specs.Inner.Numbers.{IsNarrow, IsNarrowWho, IsNarrowPattern};
ghost use Rattle.tt_proof_write.specs.Written.{tail_text};

use std::alloc::AllocError;
use tt_path::{Pattern, Who};
use tt_proof_read::{COURSE_LETTER, CURRICULUM_LETTER, DAY_LETTER, PERIOD_LETTER, ROOM_LETTER};
use tt_text::{put_next_number, put_next_token, put_number, put_token};

/// Returns the number of a version.
pub fn version_text(version: u8) -> &'static [u8]
    ensures { result.now ≡ version_text version }
{
    if version == 1 { b"1" } else { b"2" }
}

/// Writes a letter and a number.
pub fn put_index(out: &mut Vec<u8>, letter: u8, number: u32) -> Result<(), AllocError>
    ensures text { OnOk result (out.new.items ≡ out.old.items ++ tail_text (Index letter number ∷ [])) }
    ensures narrow { IsNarrow number }
{
    put_token(out, &[b' ', letter])?;
    put_number(out, u64::from(number))
}

/// Writes a price in cost points.
pub fn put_price(out: &mut Vec<u8>, price: u32) -> Result<(), AllocError>
    ensures text { OnOk result (out.new.items ≡ out.old.items ++ tail_text (Number price ∷ [])) }
    ensures narrow { IsNarrow price }
{
    put_next_number(out, u64::from(price))
}

/// Writes a letter and a number, or `*`.
fn put_given(out: &mut Vec<u8>, letter: u8, number: Option<u32>) -> Result<(), AllocError>
    ensures text { OnOk result (out.new.items ≡ out.old.items ++ tail_text (given_piece letter number ∷ [])) }
    ensures narrow { IfSome number IsNarrow }
{
    match number {
        Some(number) => put_index(out, letter, number),
        None => put_next_token(out, b"*"),
    }
}

fn put_who(out: &mut Vec<u8>, who: Who) -> Result<(), AllocError>
    ensures text { OnOk result (out.new.items ≡ out.old.items ++ tail_text (who_piece who ∷ [])) }
    ensures narrow { IsNarrowWho who }
{
    match who {
        Who::Course(course) => put_index(out, COURSE_LETTER, course),
        Who::Curriculum(curriculum) => put_index(out, CURRICULUM_LETTER, curriculum),
    }
}

/// Writes who, room, day and period.
pub fn put_pattern(out: &mut Vec<u8>, pattern: &Pattern) -> Result<(), AllocError>
    ensures text { OnOk result (out.new.items ≡ out.old.items ++ tail_text (pattern_pieces pattern.now)) }
    ensures narrow { OnOk result (IsNarrowPattern pattern.now) }
{
    put_who(out, pattern.who)?;
    put_given(out, ROOM_LETTER, pattern.room)?;
    put_given(out, DAY_LETTER, pattern.day)?;
    put_given(out, PERIOD_LETTER, pattern.period)
}

/// Writes courses up to `;`.
pub fn put_courses(out: &mut Vec<u8>, courses: &[u32]) -> Result<(), AllocError>
    ensures text { OnOk result (out.new.items ≡ out.old.items ++ tail_text (listed_pieces courses.now)) }
    ensures narrow { OnOk result (All IsNarrow courses.now) }
{
    for course in courses {
        put_index(out, COURSE_LETTER, *course)?;
    }
    put_next_token(out, b";")
}
