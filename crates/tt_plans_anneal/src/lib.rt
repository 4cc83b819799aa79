//! A search for plans of low cost: one plan is heated and cooled slowly, in cycles, and given rooms by matchings. Nothing is proved about
//! what it finds; what it hands out is a list of moves.
#![tactic(auto)]

mod annealing;
mod cooling;
mod draft;
mod incumbent;
mod matching;
mod scale;
mod schedule;
mod seating;
mod stepping;

pub use annealing::{Annealing, can_anneal};
