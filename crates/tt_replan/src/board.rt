//! A timetable without the lectures of a group, and what they cost.

use rand_pcg::Pcg32;
use std::alloc::{AllocError, Global};
use tt_instance::Instance;
use tt_occupancy::Occupied;
use tt_replan_tables::{Group, Links, Prices, Rooms, Seating, Sizes, Week};

/// The rooms, the week without the lectures of a group, the links of all courses to it, and its prices.
#[derive(Drop)]
pub struct Board {
    pub rooms: Rooms,
    pub links: Links,
    pub week: Week,
    pub prices: Prices,
}

impl Board {
    /// Reads the rooms and the courses of an instance of these sizes, and makes room for its week. Fails if memory runs out.
    pub fn new(alloc: Global, instance: &Instance<'_>, sizes: Sizes) -> Result<Board, AllocError> {
        Ok(Board {
            prices: Prices::new(alloc, sizes.slots)?,
            links: Links::new(alloc, sizes.courses, sizes.curricula)?,
            week: Week::new(alloc, sizes)?,
            rooms: Rooms::new(alloc, instance, sizes)?,
        })
    }

    /// Reads the timetable without a group, and prices its lectures. Returns whether the tables were large enough.
    pub fn read(
        &mut self,
        occupied: &Occupied<'_, '_>,
        group: &Group,
        rng: &mut Pcg32,
        noise: u32,
    ) -> bool {
        if !self.links.set(occupied, group) {
            return false;
        }
        self.week.read(occupied, &self.rooms, &self.links, group);
        let seating = Seating {
            occupied,
            rooms: &self.rooms,
            week: &self.week,
        };
        self.prices.find(&seating, group, rng, noise);
        true
    }
}
