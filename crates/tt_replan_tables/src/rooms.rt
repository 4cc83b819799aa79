//! The rooms, and the cost of a course in each.

use crate::drawing::at_most;
use crate::places::put;
use crate::reading::{Sizes, course_in_room};
use rand_pcg::Pcg32;
use std::alloc::{AllocError, Global};
use tt_instance::Instance;
use tt_occupancy::Occupied;

/// A cost point, in the thousandths used for the costs of plans.
pub const POINT: u32 = 1_000;

/// The maximum number of rooms.
pub const MOST_ROOMS: u32 = 64;

/// The cost of each lecture outside a room, when the room is considered as home.
const MOVING: u32 = 500;

/// The maximum number of missing seats; more than this count as this many.
const MOST_MISSING: u32 = 1_000;

/// A room.
#[derive(Clone, Copy)]
struct Place {
    room: u32,
    seats: u32,
}

/// What a course wants of its rooms.
#[derive(Clone, Copy)]
struct Want {
    lectures: u32,
    students: u32,
    /// The ranks that are large enough.
    fitting: u64,
    /// The preferred rank.
    home: u32,
}

/// The rooms, the largest first: a place in this order is a rank. Sets of ranks are words.
#[derive(Drop)]
pub struct Rooms {
    /// The room of each rank.
    places: Vec<Place>,
    /// The rank of each room.
    ranks: Vec<u32>,
    /// The wants of each course.
    wants: Vec<Want>,
}

/// A rank and the cost of a course in it.
#[derive(Clone, Copy)]
pub struct Rank {
    pub cost: u32,
    pub rank: u32,
}

impl Place {
    const NONE: Place = Place { room: 0, seats: 0 };

    /// Returns a room of an instance, and the number of rooms that come before it.
    fn of(instance: &Instance<'_>, room: u32) -> (Place, u32) {
        let mut rank: u32 = 0;
        if room >= instance.rooms() {
            return (Place::NONE, rank);
        }
        let seats = instance.capacity(room);
        for other in 0..instance.rooms() {
            let others = instance.capacity(other);
            if others > seats || (others == seats && other < room) {
                rank = rank.saturating_add(1);
            }
        }
        (Place { room, seats }, rank)
    }
}

impl Want {
    const NONE: Want = Want {
        lectures: 0,
        students: 0,
        fitting: 0,
        home: 0,
    };

    /// Returns what a course wants, with no preferred rank yet.
    fn of(instance: &Instance<'_>, course: u32) -> Want {
        if course >= instance.courses() {
            return Want::NONE;
        }
        let students = instance.students(course);
        let mut count: u32 = 0;
        for room in 0..instance.rooms() {
            if instance.capacity(room) >= students {
                count = count.saturating_add(1);
            }
        }
        Want {
            lectures: instance.lectures(course),
            students,
            fitting: set_of(count.min(MOST_ROOMS)).wrapping_sub(1),
            home: 0,
        }
    }
}

/// Returns the set of one rank; the empty set if the rank is too high.
pub fn set_of(rank: u32) -> u64 {
    1u64.checked_shl(rank).unwrap_or(0)
}

impl Rooms {
    /// Returns room for the data of an instance of these sizes. Fails if memory runs out.
    fn empty(alloc: Global, sizes: Sizes) -> Result<Rooms, AllocError> {
        let rooms = sizes.rooms as usize;
        Ok(Rooms {
            places: vec![in alloc; Place::NONE; rooms]?,
            ranks: vec![in alloc; 0u32; rooms]?,
            wants: vec![in alloc; Want::NONE; sizes.courses as usize]?,
        })
    }

    fn rank_rooms(&mut self, instance: &Instance<'_>, rooms: u32) {
        for room in 0..rooms {
            let (place, rank) = Place::of(instance, room);
            put(&mut self.places, rank as usize, place);
            put(&mut self.ranks, room as usize, rank);
        }
    }

    fn fit_courses(&mut self, instance: &Instance<'_>, courses: u32) {
        for course in 0..courses {
            put(&mut self.wants, course as usize, Want::of(instance, course));
        }
    }

    /// Returns the rooms of an instance. Fails if memory runs out.
    pub fn new(alloc: Global, instance: &Instance<'_>, sizes: Sizes) -> Result<Rooms, AllocError> {
        let mut rooms = Rooms::empty(alloc, sizes)?;
        rooms.rank_rooms(instance, sizes.rooms);
        rooms.fit_courses(instance, sizes.courses);
        Ok(rooms)
    }

    /// Returns the number of rooms.
    pub fn count(&self) -> u32 {
        u32::try_from(self.places.len()).unwrap_or(u32::MAX)
    }

    fn place(&self, rank: u32) -> Place {
        self.places
            .get(rank as usize)
            .copied()
            .unwrap_or(Place::NONE)
    }

    fn want(&self, course: u32) -> Want {
        self.wants
            .get(course as usize)
            .copied()
            .unwrap_or(Want::NONE)
    }

    /// Returns the rank of a room.
    pub fn rank(&self, room: u32) -> u32 {
        self.ranks.get(room as usize).copied().unwrap_or(0)
    }

    /// Returns the room of a rank.
    pub fn room(&self, rank: u32) -> u32 {
        self.place(rank).room
    }

    /// Returns the number of seats that a course misses in a rank.
    fn missing(&self, course: u32, rank: u32) -> u32 {
        let missing = self
            .want(course)
            .students
            .saturating_sub(self.place(rank).seats);
        missing.min(MOST_MISSING)
    }

    /// Returns the cost of a lecture of a course in a rank.
    pub fn cost(&self, course: u32, rank: u32) -> u32 {
        let away = u32::from(rank != self.want(course).home);
        self.missing(course, rank)
            .wrapping_add(away)
            .wrapping_mul(POINT)
    }

    /// Returns the cost of a course's lectures if a room is its home.
    fn cost_of_home(&self, occupied: &Occupied<'_, '_>, course: u32, room: u32) -> u32 {
        let lectures = self.want(course).lectures;
        let there = course_in_room(occupied, course, room);
        let elsewhere = lectures.saturating_sub(there).wrapping_mul(MOVING);
        let missing = self.missing(course, self.rank(room)).wrapping_mul(lectures);
        missing.saturating_mul(POINT).saturating_add(elsewhere)
    }

    /// Chooses the preferred rank of a course: one where it fits, and preferably one with more of its lectures; noise may change the choice.
    pub fn choose_home(
        &mut self,
        occupied: &Occupied<'_, '_>,
        rng: &mut Pcg32,
        course: u32,
        noise: u32,
    ) {
        let (mut home, mut least) = (0, u32::MAX);
        for room in 0..self.count() {
            let cost = self
                .cost_of_home(occupied, course, room)
                .saturating_add(at_most(rng, noise));
            if cost < least {
                least = cost;
                home = self.rank(room);
            }
        }
        let mut want = self.want(course);
        want.home = home;
        put(&mut self.wants, course as usize, want);
    }

    /// Returns the free rank with the lowest cost for a course; among equal ones, the smallest room. Some rank is free.
    pub fn cheapest(&self, course: u32, free: u64) -> Rank {
        let want = self.want(course);
        let home = want.home;
        if free & set_of(home) != 0 && self.missing(course, home) == 0 {
            return Rank {
                cost: 0,
                rank: home,
            };
        }
        let fitting = want.fitting & free;
        let rank = if fitting == 0 {
            free.trailing_zeros()
        } else {
            u64::BITS
                .wrapping_sub(1)
                .wrapping_sub(fitting.leading_zeros())
        };
        Rank {
            cost: self.cost(course, rank),
            rank,
        }
    }
}
