//! Proofs of lower bounds as text.
#![tactic(auto)]

mod claims;
mod fault;
mod faulty;
mod fields;
mod form;
mod format;
mod header;
mod laws;
mod lists;
mod node;
mod nodes;
mod patterns;
mod prices;
mod reader;
mod seen;
mod sizes;
mod tables;
mod tree;

pub use fault::{TextFault, Word};
pub use faulty::faulty_beginnings_spell_none;
pub use fields::{index, read_word, token};
pub use format::{
    COURSE_LETTER, CURRICULUM_LETTER, DAY_LETTER, MAX_POINTS, MAX_PRICE, MAX_PROOF_NODES,
    PERIOD_LETTER, ROOM_LETTER,
};
pub use laws::{filled_trees_are_whole, leaves_in_proofs, read_proofs_are_spelled};
pub use node::Node;
pub use reader::NodeReader;
pub use sizes::Sizes;
pub use tree::is_tree;
