//! The targets of groups with prices, as faults call them.

use std::fmt;

/// A part of the cost that groups with prices claim: the compactness of a curriculum, the working days of a course, or all rooms.
#[derive(Clone, Copy, Debug, PartialEq, Eq)]
pub enum ClaimedTarget {
    Curriculum(u32),
    Course(u32),
    Rooms,
}

impl fmt::Display for ClaimedTarget {
    fn fmt<W: fmt::Write>(&self, f: &mut fmt::Formatter<W>) -> fmt::Result {
        match self {
            ClaimedTarget::Curriculum(number) => write!(f, "q{number}"),
            ClaimedTarget::Course(number) => write!(f, "c{number}"),
            ClaimedTarget::Rooms => write!(f, "rooms"),
        }
    }
}

/// A target that an earlier file claims, and the number of that file, counted from 1.
#[derive(Clone, Copy, Debug, PartialEq, Eq)]
pub struct Owned {
    pub target: ClaimedTarget,
    pub owner: u64,
}
