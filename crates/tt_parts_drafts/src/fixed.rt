//! Numbers with a fraction, as whole numbers.

/// The number of bits of a fraction.
const BITS: u32 = 16;

/// The number 1.
pub const ONE: i64 = 1 << BITS;

/// The number 1 / 2.
const HALF: i64 = ONE / 2;

/// Returns a whole number as one with a fraction.
pub fn whole(number: i64) -> i64 {
    number.saturating_mul(ONE)
}

/// Returns the nearest whole number.
pub fn rounded(number: i64) -> i64 {
    number.saturating_add(HALF) >> BITS
}

/// Returns the product of two numbers with fractions.
pub fn product(first: i64, second: i64) -> i64 {
    first.saturating_mul(second) >> BITS
}

/// Returns a share of a whole number of units: `part` of `all`, as a number with a fraction; 0 of none.
pub fn share(part: i64, all: i64) -> i64 {
    whole(part).checked_div(all).unwrap_or(0)
}
