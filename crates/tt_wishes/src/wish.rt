//! Wishes: what a timetable is to keep besides the hard rules.

ghost use Rattle.std.specs.Prelude.{◌≡◌};
ghost use Rattle.tt_wishes.specs.Wishes.{is_there};

use crate::rooms::RoomList;
use tt_instance::Cell as Entry;
use tt_path::is_none_or_equal;

/// A room, a day and a period, each of which may be free.
#[derive(Clone, Copy, Debug, PartialEq, Eq)]
pub struct Place {
    pub room: Option<u32>,
    pub day: Option<u32>,
    pub period: Option<u32>,
}

impl Place {
    /// Returns whether an entry is there.
    pub fn has(self, entry: Entry) -> bool
        ensures { result ≡ is_there self entry }
    {
        is_none_or_equal(self.room, entry.room)
            && is_none_or_equal(self.day, entry.day)
            && is_none_or_equal(self.period, entry.period)
    }
}

/// A wish. Courses, rooms, days and periods are numbered from 0.
#[derive(Debug, Drop)]
pub enum Wish {
    /// Some lecture of the course is there.
    Hold { course: u32, place: Place },
    /// The course has lectures in no other room than these.
    Rooms { course: u32, rooms: RoomList },
    /// No lecture is there.
    Closed(Place),
}
