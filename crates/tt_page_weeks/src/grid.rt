//! What a grid shows.

use tt_table::Kind;

/// What a grid shows: the week of a room, a teacher or a curriculum, and the courses of this week.
#[derive(Clone, Copy)]
pub struct Grid<'a> {
    pub kind: Kind,
    pub number: u32,
    pub own: &'a [u32],
}
