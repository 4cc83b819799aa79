//! The whole of a source.

ghost use Rattle.std.specs.Prelude.{◌≡◌, ◌<◌, ◌≤◌, true, if◌then◌else◌, length, IfOk, IfSome, IsErrOf};
ghost use Rattle.tt_text.specs.Failures.{is_err_and, is_failed_read};

use crate::source::Source;
use std::alloc::Global;
use thiserror::Error;

/// Why a source was not read as a whole.
#[derive(Clone, Copy, Debug, PartialEq, Eq, Error)]
pub enum WholeFault {
    /// A read failed.
    #[error("cannot read")]
    Read,
    /// There are more bytes than the limit.
    #[error("too long")]
    TooLong,
    #[error("out of memory")]
    OutOfMemory,
}

const PIECE: usize = 4096;

/// Returns all bytes of a source up to its end, if they are at most `limit`.
pub fn read_whole<R: Source>(
    alloc: Global,
    source: &mut R,
    limit: usize,
) -> Result<Vec<u8>, WholeFault>
    ensures whole { IfOk result (λ v. IfSome (R.remaining source.old) (λ bytes. v.items ≡ bytes)) }
    ensures within { IfOk result (λ v. length v.items ≤ limit) }
    ensures too_long { IsErrOf result WholeFault.TooLong → IfSome (R.remaining source.old) (λ bytes. limit < length bytes) }
    ensures failed { R.has_failed source.new ≡ (if is_err_and result is_failed_read then true else R.has_failed source.old) }
{
    let mut bytes = Vec::new(alloc);
    let mut piece = [0u8; PIECE];
    loop {
        let Ok(count) = source.read(&mut piece) else {
            return Err(WholeFault::Read);
        };
        if count == 0 {
            return Ok(bytes);
        }
        if count > limit - bytes.len() {
            return Err(WholeFault::TooLong);
        }
        let (given, _) = piece.split_at(count);
        if bytes.extend_from_slice(given).is_err() {
            return Err(WholeFault::OutOfMemory);
        }
    }
}
