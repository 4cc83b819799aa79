//! Why a page was not written.

ghost use Rattle.std.specs.Prelude.{◌≡◌};
ghost use Rattle.tt_page.specs.declared.fault.PageFault.TheVariants as fault;

use std::alloc::AllocError;
use thiserror::Error;
use tt_text::WriteFailed;

/// Why a page was not written completely.
#[derive(Clone, Copy, Debug, PartialEq, Eq, Error)]
pub enum PageFault {
    /// A write failed; a prefix of the page was taken.
    #[error("cannot write")]
    Write,
    /// The page has more than 67,108,864 bytes.
    #[error("TooLarge")]
    TooLarge,
    #[error("out of memory")]
    OutOfMemory,
}

impl From<AllocError> for PageFault {
    ghost from_gives = { λ _ e. e ≡ fault.OutOfMemory };

    fn from(_e: AllocError) -> PageFault {
        PageFault::OutOfMemory
    }
}

impl From<WriteFailed> for PageFault {
    ghost from_gives = { λ _ e. e ≡ fault.Write };

    fn from(_e: WriteFailed) -> PageFault {
        PageFault::Write
    }
}
