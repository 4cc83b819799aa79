//! The form of a proof's text.

use crate::sizes::Sizes;

/// What the nodes of a proof may say: the numbers of the instance's courses, rooms and other things, and the version of the format.
#[derive(Clone, Copy, Debug, Drop)]
pub struct ProofForm {
    pub sizes: Sizes,
    pub version: u8,
}
