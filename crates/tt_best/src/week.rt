//! What a search for a best timetable has found.

use tt_parts::Parts;
use tt_table::Timetable;

/// A timetable, which may break hard rules, and proofs of a lower bound.
#[derive(Drop)]
pub struct Week {
    pub table: Timetable,
    pub parts: Parts,
}
