//! Tables of fixed size: grids, and lists of lists. Reading outside of one gives a number that is chosen when it is made, and writing
//! outside of one does nothing.
#![tactic(auto)]

mod grid;
mod rows;

pub use grid::{Counts, Words, put};
pub use rows::Rows;
