//! Tests of the checker's calls, of reads that fail on the way, and of the texts of faults.
#![tactic(auto)]

#[cfg(test)]
mod checking;
#[cfg(test)]
mod faults;
#[cfg(test)]
mod library;
#[cfg(test)]
mod nodes;
