//! The program tt: its arguments, and the answer of each command.
#![tactic(auto)]

mod program;

pub use program::run;
