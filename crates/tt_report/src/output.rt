//! A buffer before a sink.

ghost use Rattle.std.specs.Prelude.{◌≡◌, [], ◌∷◌, true, false, if◌then◌else◌, OnOk, OnErr};
ghost use Rattle.std.specs.Fmt.{decimal};
ghost use Rattle.std.specs.Io.KnownBytes.{Appends};
ghost use Rattle.tt_text.specs.Sinks.{TakesPart};
ghost use Rattle.tt_report.specs.Puts.{Puts};

use arrayvec::ArrayVec;
use itoa::Buffer;
use tt_text::{Sink, WriteFailed, write_all};

/// How many bytes the buffer holds.
pub const BUFFER_BYTES: usize = 8_192;

/// A buffer of a fixed size before a sink. Once a write has failed, the sink gets no more bytes.
#[derive(Drop)]
pub struct Output<'s, W> {
    sink: &'s mut W,
    held: ArrayVec<u8, BUFFER_BYTES>,
    failed: bool,
}

/// Writes all bytes unless a write has failed before, and returns whether one has failed by then.
fn write_unless_failed<W: Sink>(has_failed: bool, sink: &mut W, bytes: &[u8]) -> bool
    ensures all { has_failed ≡ false → result ≡ false → Appends (W.contents sink.old) (W.contents sink.new) bytes.now }
    ensures part { has_failed ≡ false → result ≡ true → TakesPart (W.contents sink.old) (W.contents sink.new) bytes.now }
    ensures failed { has_failed ≡ false → W.has_failed sink.new ≡ (if result then true else W.has_failed sink.old) }
    ensures stopped { has_failed ≡ true → (result ≡ true) × (sink.new ≡ sink.old) }
{
    if has_failed {
        return true;
    }
    write_all(sink, bytes).is_err()
}

impl<'s, W: Sink> Output<'s, W> {
    /// Creates an output with an empty buffer.
    pub fn new(sink: &'s mut W) -> Self
        ensures same_sink { result.sink.ghost_name ≡ sink.entry.ghost_name }
        ensures sink { result.sink.now ≡ sink.old }
        ensures held { result.held.items ≡ [] }
        ensures failed { result.failed ≡ false }
    {
        Output {
            sink,
            held: ArrayVec::new(),
            failed: false,
        }
    }

    /// Returns whether a write of this output has failed.
    pub fn has_failed(&self) -> bool
        ensures { result ≡ self.now.failed }
    {
        self.failed
    }

    /// Writes the buffer and empties it.
    #[tactic(auto, using(crate::proofs::Putting::puts_sent))]
    fn empty(&mut self)
        ensures puts { Puts W.contents W.has_failed self.old self.new [] }
        ensures held { self.new.held.items ≡ [] }
    {
        self.failed = write_unless_failed(self.failed, self.sink, self.held.as_slice());
        self.held.clear();
    }

    /// Writes bytes to the sink past the empty buffer.
    #[tactic(auto, using(crate::proofs::Putting::puts_sent))]
    fn send(&mut self, bytes: &[u8])
        requires { self.old.held.items ≡ [] }
        ensures { Puts W.contents W.has_failed self.old self.new bytes.now }
    {
        self.failed = write_unless_failed(self.failed, self.sink, bytes);
    }

    /// Empties the buffer and then puts bytes.
    #[tactic(auto, using(crate::proofs::Putting::puts_both, crate::proofs::Putting::puts_held))]
    fn put_after_emptying(&mut self, bytes: &[u8])
        ensures { Puts W.contents W.has_failed self.old self.new bytes.now }
    {
        self.empty();
        if self.held.try_extend_from_slice(bytes).is_err() {
            self.send(bytes);
        }
    }

    /// Puts bytes.
    #[tactic(auto, using(crate::proofs::Putting::puts_held))]
    pub fn put(&mut self, bytes: &[u8])
        ensures { Puts W.contents W.has_failed self.old self.new bytes.now }
    {
        if self.held.try_extend_from_slice(bytes).is_err() {
            self.put_after_emptying(bytes);
        }
    }

    /// Puts the digits of a number, without leading zeros.
    pub fn put_number(&mut self, number: u64)
        ensures { Puts W.contents W.has_failed self.old self.new (decimal number) }
    {
        self.put(Buffer::new().format(number).as_bytes());
    }

    /// Puts a space and the bytes of a token.
    pub fn put_next_token(&mut self, token: &[u8])
        ensures { Puts W.contents W.has_failed self.old self.new (32 ∷ token.now) }
    {
        self.put(b" ");
        self.put(token);
    }

    /// Puts a space and the digits of a number.
    pub fn put_next_number(&mut self, number: u64)
        ensures { Puts W.contents W.has_failed self.old self.new (32 ∷ decimal number) }
    {
        self.put_next_token(Buffer::new().format(number).as_bytes());
    }

    /// Puts the end of a line.
    pub fn put_line_end(&mut self)
        ensures { Puts W.contents W.has_failed self.old self.new (10 ∷ []) }
    {
        self.put(b"\n");
    }

    /// Writes what is in the buffer. Fails if a write of this output has failed.
    pub fn flush(&mut self) -> Result<(), WriteFailed>
        ensures puts { Puts W.contents W.has_failed self.old self.new [] }
        ensures written { OnOk result ((self.new.failed ≡ false) × (self.new.held.items ≡ [])) }
        ensures failed { OnErr result (self.new.failed ≡ true) }
    {
        self.empty();
        if self.failed {
            Err(WriteFailed)
        } else {
            Ok(())
        }
    }
}
