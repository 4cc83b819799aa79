//! Sets of rooms: no room, one room or all rooms.

ghost use Rattle.std.specs.Prelude.{◌≡◌, ◌+◌, ◌*◌, ◌<◌, ◌==◌, ◌&&◌, ℕ};
ghost use Rattle.tt_bits.specs.Inner.Bits.{each_bit};
ghost use Rattle.tt_path_tables.specs.Inner.Rooms.{has_room};

use tt_bits::{is_empty, lowest, one, without};

/// All rooms, one or none.
#[derive(Clone, Copy, Debug, PartialEq, Eq)]
pub enum Rooms {
    All,
    One(u32),
    Nothing,
}

impl Rooms {
    /// Returns the rooms that are in both sets.
    pub fn both(self, other: Rooms) -> Rooms
        ensures { (r : ℕ) → has_room result r ≡ (has_room self r && has_room other r) }
    {
        match (self, other) {
            (Rooms::All, _) => other,
            (_, Rooms::All) => self,
            (Rooms::One(first), Rooms::One(second)) if first == second => self,
            _ => Rooms::Nothing,
        }
    }
}

/// Returns the rooms that equal each room of a word: all if it has none, and none if it has two.
pub fn common_of(word: u64, block: u32) -> Rooms
    requires { block < 64 }
    ensures { (r : ℕ) → has_room result r ≡ each_bit word (λ k. block * 64 + k == r) }
{
    if word == 0 {
        return Rooms::All;
    }
    let room = lowest(word);
    if is_empty(without(word, one(room))) {
        Rooms::One(block * 64 + room)
    } else {
        Rooms::Nothing
    }
}
