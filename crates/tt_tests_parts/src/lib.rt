//! Tests of found parts, on small instances.
#![tactic(auto)]

#[cfg(test)]
mod finding;
#[cfg(test)]
mod memory;
