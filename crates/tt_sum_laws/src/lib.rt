//! Files that are added up have one fault.
#![tactic(auto)]

mod laws;

pub use laws::sums_have_one_fault;
