//! Sources that can report what kind of file they give before it is read, and texts in memory as sources.
#![tactic(auto)]

mod front;
mod kind;
mod memory;
mod peek;
mod peeked;

pub use front::kind_of_front;
pub use kind::FileKind;
pub use memory::Memory;
pub use peek::{PEEKED_BYTES, Peek, PeekFault};
pub use peeked::Peeked;
