//! Tests of memory in the upper layers: found leaves, the checker, the search and the commands.
#![tactic(auto)]

#[cfg(test)]
mod memory;
