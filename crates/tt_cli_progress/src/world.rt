//! What a command uses of the system.

use std::rt::{Clock, Files};

/// Files, a clock, standard input and memory.
pub trait World: Files + Clock + Input + AllocGlobal {}

impl<R: Files + Clock + Input + AllocGlobal> World for R {}
