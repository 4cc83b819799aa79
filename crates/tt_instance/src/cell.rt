//! The entries of a timetable, and periods.

ghost use Rattle.std.specs.Prelude.{◌≡◌};
ghost use Rattle.tt_instance.specs.Cells.{is_at};

/// A course in a room, in a period of a day: an entry of a timetable, or a place for one.
#[derive(Clone, Copy, Debug, PartialEq, Eq)]
pub struct Cell {
    pub course: u32,
    pub room: u32,
    pub day: u32,
    pub period: u32,
}

/// A period of a day.
#[derive(Clone, Copy, Debug, PartialEq, Eq)]
pub struct Slot {
    pub day: u32,
    pub period: u32,
}

impl Cell {
    /// Checks whether the cell is in a period.
    pub fn is_at(&self, slot: Slot) -> bool
        ensures { result ≡ is_at slot self.now }
    {
        self.day == slot.day && self.period == slot.period
    }
}
