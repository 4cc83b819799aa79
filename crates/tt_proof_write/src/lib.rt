//! Writes proofs of lower bounds as text.
#![tactic(auto)]

mod bytes;
mod claims;
mod depth;
mod fault;
mod fields;
mod limits;
mod nodes;
mod writing;

pub use fault::WriteFault;
pub use tt_proof_read::{
    COURSE_LETTER, CURRICULUM_LETTER, DAY_LETTER, MAX_POINTS, MAX_PRICE, MAX_PROOF_NODES, Node,
    NodeReader, PERIOD_LETTER, ROOM_LETTER, Sizes, TextFault, Word, filled_trees_are_whole,
    is_tree, leaves_in_proofs, read_proofs_are_spelled,
};
pub use writing::write_proof;
