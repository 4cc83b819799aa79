//! The reasons why a list of nodes can't be written.

ghost use Rattle.std.specs.Prelude.{◌≡◌};
ghost use Rattle.tt_proof_write.specs.declared.fault.WriteFault.TheVariants.{OutOfMemory};

use std::alloc::AllocError;
use thiserror::Error;

/// The reason why a list of nodes can't be written: the first in this order that applies.
#[derive(Clone, Copy, Debug, PartialEq, Eq, Error)]
pub enum WriteFault {
    /// The nodes are not one tree in preorder.
    #[error("NotATree")]
    NotATree,
    /// A number, the nodes, the depth or the bytes exceed the format's limit.
    #[error("OverLimit")]
    OverLimit,
    /// The version is 1, and a node has a claim of version 2.
    #[error("NotInVersion")]
    NotInVersion,
    /// No memory was available for the text.
    #[error("out of memory")]
    OutOfMemory,
}

impl From<AllocError> for WriteFault {
    ghost from_gives = { λ _ e. e ≡ OutOfMemory };

    fn from(_e: AllocError) -> WriteFault {
        WriteFault::OutOfMemory
    }
}
