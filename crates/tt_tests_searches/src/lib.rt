//! Tests of the searches for trees and timetables: their watches, what they start from, and proofs below a root.
#![tactic(auto)]

#[cfg(test)]
mod best;
#[cfg(test)]
mod best_kept;
#[cfg(test)]
mod counting;
#[cfg(test)]
mod ended;
#[cfg(test)]
mod rooted;
#[cfg(test)]
mod solve_kept;
#[cfg(test)]
mod watched;
#[cfg(test)]
mod weeks;
