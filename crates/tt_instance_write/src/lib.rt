//! The text that is written of an instance.
#![tactic(auto)]

mod writing;

pub use writing::write_instance;
