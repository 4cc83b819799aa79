//! Two periods.

use tt_instance::Slot;

/// Two periods between which entries change.
#[derive(Clone, Copy, Debug, PartialEq, Eq)]
pub struct SlotPair {
    pub from: Slot,
    pub to: Slot,
}
