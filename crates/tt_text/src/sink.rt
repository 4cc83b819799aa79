//! Writers that report which bytes they took, and whether a write has failed.

ghost use Rattle.std.specs.Prelude.{◌≡◌, ◌<◌, ◌≤◌, ℕ, List, Bool, true, false, is_ok, if◌then◌else◌, length, take, Option, OnOk, OnErr, IfOk};
ghost use Rattle.std.specs.Io.KnownBytes.{Appends, WriteAppends};
ghost use Rattle.tt_text.specs.Sinks.{TakesPart};

use std::io::Write;
use thiserror::Error;

/// A write failed.
#[derive(Clone, Copy, Debug, PartialEq, Eq, Error)]
#[error("a write failed")]
pub struct WriteFailed;

/// A sink of bytes.
pub trait Sink {
    // The bytes that it holds, if they are known.
    ghost contents: { Self → Option (List ℕ) };

    // Whether a write has failed.
    ghost has_failed: { Self → Bool };

    /// Takes bytes from the front, at least one if there are any, and returns how many.
    fn write(&mut self, bytes: &[u8]) -> Result<usize, WriteFailed>
        ensures within { IfOk result (λ n. n ≤ length bytes.now) }
        ensures positive { IfOk result (λ n. 0 < length bytes.now → 0 < n) }
        ensures bytes { WriteAppends (contents self.old) (contents self.new) result bytes.now }
        ensures failed { has_failed self.new ≡ (if is_ok result then has_failed self.old else true) };

    /// Returns whether a write has failed.
    fn failed(&self) -> bool
        ensures { result ≡ has_failed self.now };
}

/// A writer of std. A write that was interrupted, or that takes none of the bytes given, has failed.
#[derive(Drop)]
pub struct Writing<W> {
    writer: W,
    failed: bool,
}

impl<W: Write> Writing<W> {
    /// Creates the sink of a writer's bytes.
    pub fn new(writer: W) -> Self
        ensures writer { result.writer ≡ writer }
        ensures failed { result.failed ≡ false }
    {
        Writing {
            writer,
            failed: false,
        }
    }
}

impl<W: Write> Sink for Writing<W> {
    ghost contents = { λ s. W.contents s.writer };

    ghost has_failed = { λ s. s.failed };

    fn write(&mut self, bytes: &[u8]) -> Result<usize, WriteFailed> {
        match self.writer.write(bytes) {
            Ok(count) if count > 0 || bytes.is_empty() => Ok(count),
            _ => {
                self.failed = true;
                Err(WriteFailed)
            }
        }
    }

    fn failed(&self) -> bool {
        self.failed
    }
}

/// Writes all bytes. If that fails, a part from their front was taken.
#[tactic(auto, using(crate::proofs::TakenParts::taken_first, crate::proofs::TakenParts::taken_more, crate::proofs::TakenParts::taken_part, crate::proofs::TakenParts::taken_all))]
pub fn write_all<W: Sink>(sink: &mut W, bytes: &[u8]) -> Result<(), WriteFailed>
    ensures all { OnOk result (Appends (W.contents sink.old) (W.contents sink.new) bytes.now) }
    ensures part { OnErr result (TakesPart (W.contents sink.old) (W.contents sink.new) bytes.now) }
    ensures failed { W.has_failed sink.new ≡ (if is_ok result then W.has_failed sink.old else true) }
{
    let mut rest = bytes;
    while !rest.is_empty() {
        let count = sink.write(rest)?;
        let (_, left) = rest.split_at(count);
        rest = left;
    }
    Ok(())
}
