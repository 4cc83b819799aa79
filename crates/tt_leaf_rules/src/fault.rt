//! Faults of leaves.

use thiserror::Error;

/// Why a leaf doesn't close its node: the first fault that applies.
#[derive(Clone, Copy, Debug, PartialEq, Eq, Error)]
pub enum RuleFault {
    #[error("NotOnPath")]
    NotOnPath,
    #[error("StillAlive")]
    StillAlive,
    #[error("NotTooMany")]
    NotTooMany,
    #[error("NotAClique")]
    NotAClique,
    #[error("EnoughRoom")]
    EnoughRoom,
    #[error("ClaimedTwice")]
    ClaimedTwice,
    #[error("TooCheap")]
    TooCheap,
    #[error("NoBound")]
    NoBound,
    #[error("BadPrice")]
    BadPrice,
}
