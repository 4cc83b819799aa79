//! Names and their numbers.
#![tactic(auto)]

mod name_hasher;
mod named;
mod names;

pub use name_hasher::NameHasher;
pub use named::Named;
pub use names::Names;
