//! The week without the lectures of the group.

use crate::group::Group;
use crate::links::Links;
use crate::places::{put, put_next};
use crate::reading::{Sizes, entry_at, entry_count};
use crate::rooms::{Rooms, set_of};
use std::alloc::{AllocError, Global};
use tt_occupancy::Occupied;
use tt_table::Entry;

/// The maximum number of lectures of a group's courses.
const MOST_OWN: usize = 256;

/// No entry.
const NOBODY: u32 = u32::MAX;

/// A period without the lectures of the group.
#[derive(Clone, Copy)]
pub struct Slot {
    /// The group's curricula that other courses teach here, as a set.
    pub fixed: u128,
    /// The ranks of the free rooms, as a set.
    pub free: u64,
    /// The members that may be taught here, as a set.
    pub open: u8,
    /// The members that are taught here now, as a set.
    pub present: u8,
}

impl Slot {
    const NONE: Slot = Slot {
        fixed: 0,
        free: 0,
        open: 0,
        present: 0,
    };
}

/// A lecture of the group in its present place.
#[derive(Clone, Copy)]
pub struct Own {
    pub entry: u32,
    /// Its course's number as a member, as a set.
    pub member: u8,
    pub slot: usize,
    pub rank: u32,
}

impl Own {
    const NONE: Own = Own {
        entry: 0,
        member: 0,
        slot: 0,
        rank: 0,
    };
}

/// The week without the lectures of the group. Periods are numbered through all days.
#[derive(Drop)]
pub struct Week {
    pub days: usize,
    pub periods: usize,
    rooms: u32,
    slots: Vec<Slot>,
    /// The entry in each room of each period.
    entries: Vec<u32>,
    own: Vec<Own>,
    own_count: usize,
}

/// Returns the members that are not barred in a period, as a set.
fn open_to(occupied: &Occupied<'_, '_>, group: &Group, day: u32, period: u32) -> u8 {
    let instance = occupied.instance();
    let mut open = 0;
    for member in group.members() {
        if !instance.unavailable(member.course, day, period) {
            open |= member.set;
        }
    }
    open
}

impl Week {
    /// Makes room for a week of these sizes. Fails if memory runs out.
    pub fn new(alloc: Global, sizes: Sizes) -> Result<Week, AllocError> {
        let cells = sizes.slots.saturating_mul(sizes.rooms as usize);
        Ok(Week {
            days: sizes.days,
            periods: sizes.periods,
            rooms: sizes.rooms,
            slots: vec![in alloc; Slot::NONE; sizes.slots]?,
            entries: vec![in alloc; NOBODY; cells]?,
            own: vec![in alloc; Own::NONE; MOST_OWN]?,
            own_count: 0,
        })
    }

    /// Returns the number of periods of the week.
    pub fn len(&self) -> usize {
        self.slots.len()
    }

    /// Returns the period with this number.
    pub fn slot(&self, slot: usize) -> Slot {
        self.slots.get(slot).copied().unwrap_or(Slot::NONE)
    }

    /// Returns the number of lectures of the group.
    pub fn own_count(&self) -> usize {
        self.own_count
    }

    /// Returns a lecture of the group in its present place.
    pub fn own(&self, number: usize) -> Own {
        self.own.get(number).copied().unwrap_or(Own::NONE)
    }

    /// Returns the day of the period with this number, and its number on that day.
    pub fn day_and_period(&self, slot: usize) -> (u32, u32) {
        let day = slot.checked_div(self.periods).unwrap_or(0);
        let period = slot.checked_rem(self.periods).unwrap_or(0);
        (
            u32::try_from(day).unwrap_or(u32::MAX),
            u32::try_from(period).unwrap_or(u32::MAX),
        )
    }

    /// Returns the number of a period of a day.
    pub fn number_of(&self, day: u32, period: u32) -> usize {
        (day as usize)
            .wrapping_mul(self.periods)
            .wrapping_add(period as usize)
    }

    fn cell(&self, slot: usize, rank: u32) -> usize {
        slot.wrapping_mul(self.rooms as usize)
            .wrapping_add(rank as usize)
    }

    /// Returns the entry in a room of a period, or a number that no entry has.
    pub fn entry_in(&self, slot: usize, rank: u32) -> u32 {
        self.entries
            .get(self.cell(slot, rank))
            .copied()
            .unwrap_or(NOBODY)
    }

    /// Puts an entry in a room of a period.
    pub fn seat(&mut self, slot: usize, rank: u32, entry: u32) {
        let cell = self.cell(slot, rank);
        put(&mut self.entries, cell, entry);
        let mut place = self.slot(slot);
        place.free &= !set_of(rank);
        put(&mut self.slots, slot, place);
    }

    /// Empties all periods, and opens them to the members that are not barred in them.
    fn clear(&mut self, occupied: &Occupied<'_, '_>, group: &Group) {
        let free = set_of(self.rooms).wrapping_sub(1);
        self.entries.fill(NOBODY);
        self.own_count = 0;
        for number in 0..self.slots.len() {
            let (day, period) = self.day_and_period(number);
            let slot = Slot {
                free,
                open: open_to(occupied, group, day, period),
                ..Slot::NONE
            };
            put(&mut self.slots, number, slot);
        }
    }

    fn add_own(&mut self, own: Own) {
        self.own_count = put_next(&mut self.own, self.own_count, own);
        let mut place = self.slot(own.slot);
        place.present |= own.member;
        put(&mut self.slots, own.slot, place);
    }

    fn add(&mut self, rooms: &Rooms, links: &Links, number: u32, entry: Entry) {
        let slot = self.number_of(entry.day, entry.period);
        let rank = rooms.rank(entry.room);
        let link = links.get(entry.course);
        if link.member != 0 {
            self.add_own(Own {
                entry: number,
                member: link.member,
                slot,
                rank,
            });
            return;
        }
        self.seat(slot, rank, number);
        let mut place = self.slot(slot);
        place.fixed |= link.curricula;
        place.open &= !link.excluded;
        put(&mut self.slots, slot, place);
    }

    /// Reads a timetable without the lectures of the group.
    pub fn read(
        &mut self,
        occupied: &Occupied<'_, '_>,
        rooms: &Rooms,
        links: &Links,
        group: &Group,
    ) {
        self.clear(occupied, group);
        for number in 0..entry_count(occupied) {
            if let Some(entry) = entry_at(occupied, number) {
                self.add(rooms, links, number, entry);
            }
        }
    }
}
