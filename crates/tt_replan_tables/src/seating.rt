//! The search for a seat of a lecture.

use crate::reading::entry_at;
use crate::rooms::{MOST_ROOMS, Rooms, set_of};
use crate::seats::{Evicted, Seat};
use crate::week::Week;
use tt_occupancy::Occupied;

/// A timetable with its rooms, and its week without the lectures of a group, in which their seats are looked for.
#[derive(Clone, Copy)]
pub struct Seating<'s, 'a, 'i> {
    pub occupied: &'s Occupied<'a, 'i>,
    pub rooms: &'s Rooms,
    pub week: &'s Week,
}

impl<'s, 'a, 'i> Seating<'s, 'a, 'i> {
    /// Returns the seat of a course in a rank with another entry, which moves to a free rank.
    fn taken(&self, course: u32, slot: usize, rank: u32) -> Option<Seat> {
        let entry = self.week.entry_in(slot, rank);
        let other = entry_at(self.occupied, entry)?.course;
        let there = self.rooms.cheapest(other, self.week.slot(slot).free);
        let cost = self
            .rooms
            .cost(course, rank)
            .wrapping_add(there.cost)
            .saturating_sub(self.rooms.cost(other, rank));
        Some(Seat {
            cost,
            rank,
            evicted: Some(Evicted {
                entry,
                rank: there.rank,
            }),
        })
    }

    /// Returns the cheapest seat of a course in a period, if a room is free in it. At most one entry makes room.
    pub fn cheapest(&self, course: u32, slot: usize) -> Option<Seat> {
        let free = self.week.slot(slot).free;
        if free == 0 {
            return None;
        }
        let first = self.rooms.cheapest(course, free);
        let mut best = Seat {
            cost: first.cost,
            rank: first.rank,
            evicted: None,
        };
        for rank in 0..MOST_ROOMS.min(self.rooms.count()) {
            if best.cost == 0 {
                break;
            }
            if free & set_of(rank) == 0
                && let Some(seat) = self.taken(course, slot, rank)
                && seat.cost < best.cost
            {
                best = seat;
            }
        }
        Some(best)
    }
}
