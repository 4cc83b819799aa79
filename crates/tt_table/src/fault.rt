//! Why a timetable can't take another entry, or bytes spell no timetable.

ghost use Rattle.std.specs.Prelude.{◌≡◌};
ghost use Rattle.tt_table.specs.declared.fault.SolutionFault.TheVariants.{OutOfMemory};

use std::alloc::{AllocError, AllocFailed};
use thiserror::Error;

/// Why an entry was not added.
#[derive(Clone, Copy, Debug, PartialEq, Eq, Error)]
pub enum PushFault {
    /// The timetable has the maximum number of entries.
    #[error("Full")]
    Full,
    #[error("out of memory")]
    OutOfMemory,
}

/// The first fault from the left, with the offset of its token (of the end, if a token is missing), or being out of memory.
#[derive(Clone, Copy, Debug, PartialEq, Eq, Error)]
pub enum SolutionFault {
    #[error("Ended at byte {0}")]
    Ended(usize),
    #[error("UnknownCourse at byte {0}")]
    UnknownCourse(usize),
    #[error("UnknownRoom at byte {0}")]
    UnknownRoom(usize),
    #[error("NotANumber at byte {0}")]
    NotANumber(usize),
    /// A day or a period that is a number but not below its bound.
    #[error("OutOfRange at byte {0}")]
    OutOfRange(usize),
    /// The first token of an entry past the last one allowed.
    #[error("TooMany at byte {0}")]
    TooMany(usize),
    #[error("out of memory")]
    OutOfMemory,
}

impl From<AllocError> for SolutionFault {
    ghost from_gives = { λ _ e. e ≡ OutOfMemory };

    fn from(_e: AllocError) -> SolutionFault {
        SolutionFault::OutOfMemory
    }
}

impl<T: Drop> From<AllocFailed<T>> for SolutionFault {
    ghost from_gives = { λ _ e. e ≡ OutOfMemory };

    fn from(_e: AllocFailed<T>) -> SolutionFault {
        SolutionFault::OutOfMemory
    }
}
