//! The live cells of a path of facts, in tables that undo each fact.
#![tactic(auto)]

mod added;
mod adding;
mod again;
mod cells;
mod listing;
mod order;
mod settling;
mod shelves;
mod tables;
mod watching;

pub use cells::Cells;
