//! Words as sets of numbers below 64, and tables of numbers that can be restored to marked states.
#![tactic(auto)]

mod bits;
mod trail;

pub use bits::{
    below, both, clear, count, either, has_bit, is_empty, lowest, next, one, others, previous,
    with_if, without,
};
pub use trail::Trail;
