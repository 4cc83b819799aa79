//! Entries of a day's table.

/// The maximum number of digits of a place: one of lectures for each course, and one of further lectures for each course of the group.
pub const DIGITS: usize = 32;

/// A possible day: an amount for each digit, and a lower bound of the day's cost.
#[derive(Clone, Copy, Debug, PartialEq, Eq)]
pub struct DayEntry {
    pub amounts: [u8; DIGITS],
    pub cost: u8,
}
