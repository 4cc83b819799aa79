//! The prices of rooms, by number.

ghost use Rattle.std.specs.Prelude.{◌≡◌, ◌<◌};
ghost use Rattle.tt_instance.specs.declared.limit.TheConstants.{MAX_ROOMS};
ghost use Rattle.tt_leaf_rules.specs.Claims.{price_in};

use std::marker::Model;

/// The number of a room is below this.
const ROOMS: usize = 512;

/// The prices of a list, at the numbers of their rooms; 0 for a room that isn't listed.
#[derive(Drop)]
pub struct RoomPrices<'a> {
    listed: &'a [(u32, u32)],
    prices: [u32; ROOMS],
}

impl<'a> Model for RoomPrices<'a> {
    ghost use Rattle.std.specs.Prelude.{◌≡◌, ◌<◌, ℕ, List, slice_index_or};
    ghost use Rattle.tt_leaf_rules.specs.Claims.{price_in};

    ghost Value = { List (ℕ × ℕ) };

    ghost view = { λ a. a.listed.now };

    ghost invariant = { λ a. (r : ℕ) → r < 512 → slice_index_or a.prices r 0 ≡ price_in a.listed.now r };
}

impl<'a> RoomPrices<'a> {
    /// Creates a table of the prices in a list. If the list has a room twice, its first price counts.
    pub fn new(listed: &'a [(u32, u32)]) -> Self
        ensures { result ≡ listed.now }
    {
        let mut prices = [0; ROOMS];
        let mut left = listed.len();
        while left > 0 {
            left -= 1;
            let (room, price) = listed[left];
            if (room as usize) < ROOMS {
                prices[room as usize] = price;
            }
        }
        RoomPrices { listed, prices }
    }

    /// Returns the price of a room.
    pub fn of(&self, room: u32) -> u32
        requires { room < MAX_ROOMS }
        ensures { result ≡ price_in self.now room }
    {
        self.prices[room as usize]
    }
}
