//! Tests that the path with tables gives the same answers as the plain path, and of leaves over both paths, also of those that are found.
#![tactic(auto)]

#[cfg(test)]
mod agreement;
#[cfg(test)]
mod answers;
#[cfg(test)]
mod checked;
#[cfg(test)]
mod deadness;
#[cfg(test)]
mod dice;
#[cfg(test)]
mod drawn;
#[cfg(test)]
mod each_leaf;
#[cfg(test)]
mod finding;
#[cfg(test)]
mod instances;
#[cfg(test)]
mod large;
#[cfg(test)]
mod leaves;
#[cfg(test)]
mod memory;
