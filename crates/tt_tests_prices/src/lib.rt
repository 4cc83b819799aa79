//! Tests of what groups with prices and courses pay at least, on tiny groups and instances.
#![tactic(auto)]

#[cfg(test)]
mod brute_force;
#[cfg(test)]
mod drawn;
#[cfg(test)]
mod groups;
#[cfg(test)]
mod groups_drawn;
#[cfg(test)]
mod terms;
#[cfg(test)]
mod weeks;
