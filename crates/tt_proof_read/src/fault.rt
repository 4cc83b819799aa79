//! Why a text isn't a proof.

ghost use Rattle.std.specs.Prelude.{◌≡◌};
ghost use Rattle.tt_proof_read.specs.declared.fault.TextFault.TheVariants.{OutOfMemory};
ghost use Rattle.tt_proof_read.specs.Words.{word_text};

use std::alloc::{AllocError, AllocFailed};
use std::fmt;
use thiserror::Error;
use tt_text::FeedFault;

/// A fixed word of the format.
#[derive(Clone, Copy, Debug, PartialEq, Eq)]
pub enum Word {
    Cttp,
    One,
    Bound,
    End,
}

impl Word {
    /// Returns the word as text.
    pub fn as_str(self) -> &'static str
        ensures { result.now ≡ word_text self }
    {
        match self {
            Word::Cttp => "CTTP",
            Word::One => "1",
            Word::Bound => "bound",
            Word::End => "end",
        }
    }

    /// Returns the bytes of the word.
    pub fn text(self) -> &'static [u8]
        ensures { result.now ≡ word_text self }
    {
        self.as_str().as_bytes()
    }
}

impl fmt::Display for Word {
    fn fmt<W: fmt::Write>(&self, f: &mut fmt::Formatter<W>) -> fmt::Result {
        f.write_str(self.as_str())
    }
}

/// The first fault from the left, with the offset of its token (of the end, if a token is missing), or the feed's own fault.
#[derive(Clone, Copy, Debug, PartialEq, Eq, Error)]
pub enum TextFault {
    #[error("Ended at byte {0}")]
    Ended(usize),
    #[error("Expected {0} at byte {1}")]
    Expected(Word, usize),
    #[error("UnknownWord at byte {0}")]
    UnknownWord(usize),
    /// A number is missing, or is above its limit.
    #[error("NotANumber at byte {0}")]
    NotANumber(usize),
    #[error("UnknownIndex at byte {0}")]
    UnknownIndex(usize),
    #[error("RepeatedIndex at byte {0}")]
    RepeatedIndex(usize),
    #[error("TrailingToken at byte {0}")]
    TrailingToken(usize),
    #[error("TooManyNodes at byte {0}")]
    TooManyNodes(usize),
    #[error("{0}")]
    Feed(FeedFault),
    #[error("out of memory")]
    OutOfMemory,
}

impl From<FeedFault> for TextFault {
    ghost use Rattle.tt_proof_read.specs.Faults.{fault_from_feed};

    ghost from_gives = { λ f e. e ≡ fault_from_feed f };

    fn from(fault: FeedFault) -> TextFault {
        match fault {
            FeedFault::OutOfMemory => TextFault::OutOfMemory,
            fault => TextFault::Feed(fault),
        }
    }
}

impl From<AllocError> for TextFault {
    ghost from_gives = { λ _ e. e ≡ OutOfMemory };

    fn from(_e: AllocError) -> TextFault {
        TextFault::OutOfMemory
    }
}

impl<T: Drop> From<AllocFailed<T>> for TextFault {
    ghost from_gives = { λ _ e. e ≡ OutOfMemory };

    fn from(_e: AllocFailed<T>) -> TextFault {
        TextFault::OutOfMemory
    }
}
