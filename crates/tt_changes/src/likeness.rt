//! What two entries have in common.

ghost use Rattle.std.specs.Prelude.{◌≡◌};
ghost use Rattle.tt_changes.specs.Inner.Pairings.{are_alike};

use tt_table::Entry;

/// What two entries have in common.
#[derive(Clone, Copy)]
pub enum Likeness {
    /// The course, the room and the period.
    Place,
    /// The course and the period.
    Period,
    /// The course.
    Course,
}

impl Likeness {
    /// Returns whether two entries have this in common.
    pub fn holds(self, older: &Entry, newer: &Entry) -> bool
        ensures { result ≡ are_alike self older.now newer.now }
    {
        match self {
            Likeness::Place => {
                older.course == newer.course
                    && older.room == newer.room
                    && older.day == newer.day
                    && older.period == newer.period
            }
            Likeness::Period => {
                older.course == newer.course
                    && older.day == newer.day
                    && older.period == newer.period
            }
            Likeness::Course => older.course == newer.course,
        }
    }
}
