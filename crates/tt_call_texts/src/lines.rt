//! Lines of JSON.

ghost use Rattle.std.specs.Prelude.{◌≤◌, IfOk};
ghost use Rattle.serde_json.specs.Data.{depth};
ghost use Rattle.serde_json.specs.Read.{max_depth};
ghost use Rattle.serde_json.specs.View.{view};
ghost use Rattle.tt_call_texts.specs.Lines.{IsLineOf};

use serde_json::Value;
use std::alloc::{AllocError, Global};
use tt_text::put_line_end;

/// Returns a value as a line.
pub fn line_of(alloc: Global, value: &Value) -> Result<Vec<u8>, AllocError>
    ensures { IfOk result (λ out. depth (view value.now) ≤ max_depth → IsLineOf (view value.now) out.items) }
{
    let mut out = value.to_string(alloc)?.into_bytes();
    put_line_end(&mut out)?;
    Ok(out)
}
