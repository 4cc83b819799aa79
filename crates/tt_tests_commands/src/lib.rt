//! Tests of the commands that can't be scenarios of text: files of 64 MB, closed outputs, each cut of a proof, each limit of a search, and names
//! whose letters don't show.
#![tactic(auto)]

#[cfg(test)]
mod files;
#[cfg(test)]
mod names;
#[cfg(test)]
mod proofs;
