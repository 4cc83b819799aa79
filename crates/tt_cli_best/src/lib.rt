//! The files of `best`.
#![tactic(auto)]

mod best;
mod best_files;
mod best_keeper;

pub use best::answer_best;
