//! The commands `improve`, `parts` and `solve`.
#![tactic(auto)]

mod commands;
mod dropping;
mod near;
mod partial;
mod solve;
mod tree_files;

pub use commands::improve::answer_improve;
pub use commands::parts::answer_parts;
pub use solve::answer_solve;
