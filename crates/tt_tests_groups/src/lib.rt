//! Tests of found groups and of claims about random groups, on small instances.
#![tactic(auto)]

#[cfg(test)]
mod brute_force;
#[cfg(test)]
mod claims;
#[cfg(test)]
mod drawn;
#[cfg(test)]
mod finding;
#[cfg(test)]
mod work;
