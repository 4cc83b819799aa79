//! Limits of what is counted.

/// Each of the eight counts is at most this, 2^40: the greatest is that of seats, at most `MAX_ENTRIES * MAX_SEATS`.
pub const MAX_COUNT: u64 = 1_099_511_627_776;

/// The place of any entry is below this, 2^40, also of one that is out of range: its day and its period are below 2^32, and a day has at most
/// `MAX_PERIODS` periods.
pub const MAX_PLACE: usize = 1_099_511_627_776;
