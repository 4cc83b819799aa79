//! Runs of the program in tests, over files in memory, and scenarios of such runs as text.
#![tactic(auto)]

mod commands;
mod expected;
mod memory_files;
mod scenarios;
mod script;
mod stage;

pub use commands::{Outcome, run_on, run_with};
pub use memory_files::{MemoryFiles, OpenMemoryFile, OpenMemoryInput, Refusal};
pub use scenarios::play;
