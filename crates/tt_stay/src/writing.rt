//! The line of a weight.

ghost use Rattle.std.specs.Prelude.{◌≡◌, IfOk};
ghost use Rattle.tt_text.specs.Lines.{line_text};
ghost use Rattle.tt_stay.specs.Staying.{weight_line};

use crate::weight::Weight;
use std::alloc::{AllocError, Global};
use tt_text::{put_line_end, put_next_number, put_next_token, put_token};

/// Returns the line of a weight: the hard count, the cost, and how many lectures left their period and how many only their room.
pub fn write_weight(alloc: Global, weight: Weight) -> Result<Vec<u8>, AllocError>
    ensures { IfOk result (λ out. out.items ≡ line_text (weight_line weight)) }
{
    let mut out = Vec::new(alloc);
    put_token(&mut out, b"hard")?;
    put_next_number(&mut out, weight.hard)?;
    put_next_token(&mut out, b"cost")?;
    put_next_number(&mut out, weight.cost)?;
    put_next_token(&mut out, b"moved")?;
    put_next_number(&mut out, weight.moved)?;
    put_next_token(&mut out, b"rooms")?;
    put_next_number(&mut out, weight.rooms)?;
    put_line_end(&mut out)?;
    Ok(out)
}
