//! The strongest of some proofs.

ghost use Rattle.std.specs.Prelude.{IfOk, IfSome};
ghost use Rattle.tt_parts.specs.Found.{AreFoundOn};

use crate::finding::{Parts, add_up};
use crate::stronger::better_of;
use crate::together::copy_texts;
use std::alloc::{AllocError, Global};
use tt_instance::Instance;
use tt_path::Fact;

/// Returns the proof with the strongest bound among those that are right alone.
fn best_alone(
    alloc: Global,
    instance: &Instance<'_>,
    root: &[Fact],
    texts: &[Vec<u8>],
) -> Result<Option<Parts>, AllocError>
    ensures { IfOk result (λ found. IfSome found (AreFoundOn instance.now root.now)) }
{
    let mut best: Option<Parts> = None;
    for text in texts {
        let mut alone = Vec::new(alloc);
        alone.push(Vec::from_slice(alloc, text)?)?;
        best = match (best, add_up(alloc, instance, root, alone)?) {
            (Some(older), Some(newer)) => Some(better_of(older, newer)),
            (older, None) => older,
            (None, newer) => newer,
        };
    }
    Ok(best)
}

/// Returns proofs with their sum if they add up; if they don't, the one with the strongest bound among those that are right alone. Returns
/// `None` if none is right, or none is given.
pub fn add_up_or_best(
    alloc: Global,
    instance: &Instance<'_>,
    root: &[Fact],
    texts: &[Vec<u8>],
) -> Result<Option<Parts>, AllocError>
    ensures { IfOk result (λ found. IfSome found (AreFoundOn instance.now root.now)) }
{
    if texts.is_empty() {
        return Ok(None);
    }
    let all = copy_texts(alloc, texts)?;
    if let Some(parts) = add_up(alloc, instance, root, all)? {
        return Ok(Some(parts));
    }
    best_alone(alloc, instance, root, texts)
}
