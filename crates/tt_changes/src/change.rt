//! What changed from an older timetable to a newer one.

use tt_table::Entry;

/// A lecture that the newer timetable has elsewhere.
#[derive(Clone, Copy, Debug, PartialEq, Eq)]
pub struct Change {
    pub from: Entry,
    pub to: Entry,
}

/// The lectures that changed.
#[derive(Debug, Drop)]
pub struct Changes {
    /// The lectures that left their period.
    pub moved: Vec<Change>,
    /// The lectures that kept their period and changed only their room.
    pub rooms: Vec<Change>,
    /// The entries of the older timetable for which the newer one has no lecture.
    pub gone: Vec<Entry>,
    /// The entries of the newer timetable for which the older one has no lecture.
    pub added: Vec<Entry>,
}
