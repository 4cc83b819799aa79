//! Logarithms and powers of two in small steps, with linear interpolation between whole numbers.

/// The number of steps between one power of two and the next.
pub const STEPS: u64 = 64;

/// Returns the logarithm of a number above 0, in steps.
pub fn logarithm(number: u64) -> u64 {
    let number = number.max(1);
    let whole = u64::from(number.ilog2());
    let start = 2u64.saturating_pow(number.ilog2());
    let rest = u128::from(number - start) * u128::from(STEPS) / u128::from(start);
    whole * STEPS + rest as u64
}

/// Returns the number with a logarithm, given in steps.
pub fn power(logarithm: u64) -> u64 {
    let whole = (logarithm / STEPS).min(u64::from(u64::BITS)) as u32;
    2u64.saturating_pow(whole)
        .saturating_mul(STEPS + logarithm % STEPS)
}
