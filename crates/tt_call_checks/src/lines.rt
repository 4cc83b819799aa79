//! The lines that the commands print.

ghost use Rattle.std.specs.Prelude.{◌≡◌, ◌+◌, ◌++◌, ◌∷◌, [], codes, IfOk, OnOk};
ghost use Rattle.std.specs.Fmt.{decimal};
ghost use Rattle.tt_call_answers.specs.Lines.{yes_line, broken_line, bound_line, count_line};

use std::alloc::{AllocError, Global};
use tt_leaf::Bound;
use tt_text::{put_line_end, put_next_number, put_number, put_token};

/// Returns the line of a solution that breaks no hard rule, with its cost and the bound that is proved.
pub fn yes_line(alloc: Global, cost: u64, bound: u64) -> Result<Vec<u8>, AllocError>
    ensures { IfOk result (λ out. out.items ≡ yes_line cost bound) }
{
    let mut out = Vec::new(alloc);
    put_token(&mut out, b"yes cost ")?;
    put_number(&mut out, cost)?;
    put_token(&mut out, b" bound ")?;
    put_number(&mut out, bound)?;
    if cost == bound {
        put_token(&mut out, b" optimal")?;
    }
    put_line_end(&mut out)?;
    Ok(out)
}

/// Returns the line of a solution that breaks a hard rule.
pub fn broken_line(alloc: Global, hard: u64, cost: u64) -> Result<Vec<u8>, AllocError>
    ensures { IfOk result (λ out. out.items ≡ broken_line hard cost) }
{
    let mut out = Vec::new(alloc);
    put_token(&mut out, b"broken hard ")?;
    put_number(&mut out, hard)?;
    put_token(&mut out, b" cost ")?;
    put_number(&mut out, cost)?;
    put_line_end(&mut out)?;
    Ok(out)
}

/// Returns the line of a bound.
pub fn bound_line(alloc: Global, bound: Bound) -> Result<Vec<u8>, AllocError>
    ensures { IfOk result (λ out. out.items ≡ bound_line bound) }
{
    let mut out = Vec::new(alloc);
    put_token(&mut out, b"bound ")?;
    match bound {
        Bound::AtLeast(least) => put_number(&mut out, least)?,
        Bound::Nothing => put_token(&mut out, b"none")?,
    }
    put_line_end(&mut out)?;
    Ok(out)
}

/// Writes a line of a name and its number.
pub fn put_count(out: &mut Vec<u8>, name: &[u8], count: u64) -> Result<(), AllocError>
    ensures { OnOk result (out.new.items ≡ out.old.items ++ count_line name.now count) }
{
    put_token(out, name)?;
    put_next_number(out, count)?;
    put_line_end(out)
}
