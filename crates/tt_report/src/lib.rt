//! Weekly reports by room, teacher and curriculum, written through a buffer.
#![tactic(auto)]

mod blocks;
mod output;
mod reports;
mod showing;

pub use output::{BUFFER_BYTES, Output};
pub use reports::report;
pub use tt_table::Kind as By;
