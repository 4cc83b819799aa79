//! Rooms that a wish lists: contracts see them as a list.

ghost use Rattle.std.specs.Prelude.{◌≡◌};
ghost use Rattle.tt_list_laws.specs.Words.{has_number};

use std::marker::Model;

/// Rooms, by number.
#[derive(Debug, Drop)]
pub struct RoomList {
    items: Vec<u32>,
}

impl Model for RoomList {
    ghost use Rattle.std.specs.Prelude.{List, ℕ};

    ghost Value = { List ℕ };

    ghost view = { λ s. s.items.items };
}

impl RoomList {
    /// Creates a list of the rooms of a vector, in its order.
    pub fn new(items: Vec<u32>) -> RoomList
        ensures { result ≡ items.items }
    {
        RoomList { items }
    }

    /// Returns the rooms in order.
    pub fn as_slice(&self) -> &[u32]
        ensures { result.now ≡ self.now }
    {
        self.items.as_slice()
    }

    /// Returns whether a room is listed.
    pub fn has(&self, room: u32) -> bool
        ensures { result ≡ has_number self.now room }
    {
        self.as_slice().contains(&room)
    }
}
