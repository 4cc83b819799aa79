//! Why the text of a page was not made, and why names of days and periods were not taken.

ghost use Rattle.std.specs.Prelude.{◌≡◌};
ghost use Rattle.tt_page_text.specs.declared.fault.LabelsFault.TheVariants as fault;
ghost use Rattle.tt_page_text.specs.declared.fault.TextFault.TheVariants as text_fault;

use std::alloc::{AllocError, AllocFailed};
use thiserror::Error;

/// Why the text of a page was not made.
#[derive(Clone, Copy, Debug, PartialEq, Eq, Error)]
pub enum TextFault {
    /// The page would have more than 67,108,864 bytes.
    #[error("TooLarge")]
    TooLarge,
    #[error("out of memory")]
    OutOfMemory,
}

impl From<AllocError> for TextFault {
    ghost from_gives = { λ _ e. e ≡ text_fault.OutOfMemory };

    fn from(_e: AllocError) -> TextFault {
        TextFault::OutOfMemory
    }
}

/// Why names of days and periods were not taken.
#[derive(Clone, Copy, Debug, PartialEq, Eq, Error)]
pub enum LabelsFault {
    /// There are more or fewer names than days.
    #[error("Days")]
    Days,
    /// There are more or fewer names than periods of a day.
    #[error("Periods")]
    Periods,
    #[error("out of memory")]
    OutOfMemory,
}

impl From<AllocError> for LabelsFault {
    ghost from_gives = { λ _ e. e ≡ fault.OutOfMemory };

    fn from(_e: AllocError) -> LabelsFault {
        LabelsFault::OutOfMemory
    }
}

impl<T: Drop> From<AllocFailed<T>> for LabelsFault {
    ghost from_gives = { λ _ e. e ≡ fault.OutOfMemory };

    fn from(_e: AllocFailed<T>) -> LabelsFault {
        LabelsFault::OutOfMemory
    }
}
