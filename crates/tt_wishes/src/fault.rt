//! Why bytes spell no wishes.

ghost use Rattle.std.specs.Prelude.{◌≡◌};
ghost use Rattle.tt_wishes.specs.declared.fault.WishesFault.TheVariants.{OutOfMemory};

use std::alloc::{AllocError, AllocFailed};
use thiserror::Error;

/// The first fault from the left, with the offset of its word (of the end of the line, if a word is missing), or being out of memory.
#[derive(Clone, Copy, Debug, PartialEq, Eq, Error)]
pub enum WishesFault {
    /// The first word of a line is none of `hold`, `room` and `closed`.
    #[error("UnknownWord at byte {0}")]
    UnknownWord(usize),
    #[error("UnknownCourse at byte {0}")]
    UnknownCourse(usize),
    #[error("UnknownRoom at byte {0}")]
    UnknownRoom(usize),
    #[error("NotANumber at byte {0}")]
    NotANumber(usize),
    /// A day or a period that is a number but not below its bound.
    #[error("OutOfRange at byte {0}")]
    OutOfRange(usize),
    /// The line ends before its wish does.
    #[error("Ended at byte {0}")]
    Ended(usize),
    /// The first word of a line that its wish has no place for.
    #[error("TooMany at byte {0}")]
    TooMany(usize),
    /// The first word of a wish past the last one allowed.
    #[error("TooManyWishes at byte {0}")]
    TooManyWishes(usize),
    #[error("out of memory")]
    OutOfMemory,
}

impl From<AllocError> for WishesFault {
    ghost from_gives = { λ _ e. e ≡ OutOfMemory };

    fn from(_e: AllocError) -> WishesFault {
        WishesFault::OutOfMemory
    }
}

impl<T: Drop> From<AllocFailed<T>> for WishesFault {
    ghost from_gives = { λ _ e. e ≡ OutOfMemory };

    fn from(_e: AllocFailed<T>) -> WishesFault {
        WishesFault::OutOfMemory
    }
}
