//! Tests of the layers below the search and the program: files, tables and texts of proofs, by the library's calls.
#![tactic(auto)]

#[cfg(test)]
mod memory;
#[cfg(test)]
mod reading;
#[cfg(test)]
mod sources;
#[cfg(test)]
mod tables;
#[cfg(test)]
mod texts;
#[cfg(test)]
mod wishes;
#[cfg(test)]
mod writing;
