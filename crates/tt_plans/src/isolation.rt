//! Isolated periods of a day. A day is a word with a bit for each period, above two bits that are 0.

/// The bits of the two periods before a period, of the period, and of the two after it.
const AROUND: u64 = 31;

/// The bits of a period and of those next to it.
const MIDDLE: u64 = 14;

/// The bit of a period among those around it.
const CENTRE: u64 = 4;

/// Returns the periods of a set that are next to no other.
fn isolated(periods: u64) -> u64 {
    periods & !periods.wrapping_shl(1) & !periods.wrapping_shr(1)
}

/// Returns the number of isolated periods of a day.
pub fn isolated_on(day: u64) -> i64 {
    i64::from(isolated(day).count_ones())
}

/// Returns the number of isolated periods among a period and those next to it.
fn isolated_around(around: u64) -> i64 {
    i64::from((isolated(around) & MIDDLE).count_ones())
}

/// Returns how many more periods of a day are isolated once a period is taken.
pub fn alone_if_taken(day: u64, period: u32) -> i64 {
    let around = day.wrapping_shr(period) & AROUND;
    isolated_around(around | CENTRE).wrapping_sub(isolated_around(around))
}

/// Returns how many more periods of a day are isolated once a period is free.
pub fn alone_if_freed(day: u64, period: u32) -> i64 {
    let around = day.wrapping_shr(period) & AROUND;
    isolated_around(around & !CENTRE).wrapping_sub(isolated_around(around))
}
