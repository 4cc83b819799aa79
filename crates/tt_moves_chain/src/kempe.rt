//! Chains, and the reasons why there is none.

ghost use Rattle.std.specs.Prelude.{◌≡◌};
ghost use Rattle.std.specs.List.Sorted.{IsStrictlyIncreasing};

use crate::slots::SlotPair;
use std::marker::Model;
use thiserror::Error;

/// The reason why there is no chain.
#[derive(Clone, Copy, Debug, PartialEq, Eq, Error)]
pub enum ChainFault {
    /// The target is the entry's own period.
    #[error("the entry stands in this period")]
    SamePeriod,
    /// This entry would move to a period that is unavailable.
    #[error("entry {0} is unavailable there")]
    Unavailable(u32),
    #[error("out of memory")]
    OutOfMemory,
}

/// Entries of two periods that change periods together.
#[derive(Drop)]
pub struct Chain {
    pub(crate) pair: SlotPair,
    pub(crate) members: Vec<u32>,
}

impl Model for Chain {
    ghost use Rattle.tt_moves_chain.specs.Chains.{Kempe};
    ghost use Rattle.tt_moves_chain.specs.Answers.{IsTurnable};

    ghost Value = { Kempe };

    ghost view = { λ a. record { from = a.pair.from; to = a.pair.to; members = a.members.items } };

    ghost invariant = { λ a. IsTurnable a.pair.from a.pair.to a.members.items };
}

impl Chain {
    /// Returns the entries, in increasing order.
    pub fn members(&self) -> &[u32]
        ensures value { result.now ≡ self.now.members }
        ensures rising { IsStrictlyIncreasing result.now }
    {
        self.members.as_slice()
    }
}
