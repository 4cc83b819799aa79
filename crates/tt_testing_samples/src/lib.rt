//! Instances and solutions that several crates of tests share.
#![tactic(auto)]

mod samples;

pub use samples::{
    APART, CIRCLE, CROWDED, FLAT, FLAT_SOLUTION, GAP, GAP_PROOF, LINES, LONG, MARK, MINI,
    MINI_SOLUTION, PAIR, SAME, SEATS, TOUR, TRIO, WIDE, WIDE_SOLUTION, edited, repeated, sample,
};
