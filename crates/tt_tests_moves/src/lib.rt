//! Tests of changing timetables: their counts, steps, chains and searches, by the library's calls.
#![tactic(auto)]

#[cfg(test)]
mod memory;
#[cfg(test)]
mod moving;
#[cfg(test)]
mod occupancy;
#[cfg(test)]
mod searching;
#[cfg(test)]
mod timetables;
