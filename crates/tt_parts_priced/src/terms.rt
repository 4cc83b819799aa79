//! The terms of courses: the least that their lectures pay in rooms and periods.

use std::alloc::{AllocError, Global};
use tt_instance::Instance;

/// The number of bits of a tie that are random.
const NOISE_BITS: u32 = 8;

/// The number of bits of a tie below the votes.
const LOAD_BITS: u32 = 12;

/// The highest load that counts in a tie.
const MAX_LOAD: u32 = 15;

/// A place of a lecture: what it pays, the order of places that pay the same, the slot and the room.
#[derive(Clone, Copy, Debug)]
pub struct Cell {
    pub paid: i64,
    tie: u32,
    pub slot: usize,
    pub room: usize,
}

/// The places among which a term chooses, and the ones that it has chosen.
#[derive(Debug, Drop)]
pub struct Placing {
    cells: Vec<Cell>,
    cheapest: Vec<Cell>,
    pub chosen: Vec<Cell>,
}

/// What places pay: the prices that a lecture gets in each slot, and the rent of each room, slot by slot. Between places that pay the same decide
/// the number of groups that don't have the course in each slot, the number of lectures in each place so far, and a random number.
#[derive(Clone, Copy, Debug)]
pub struct Offer<'a> {
    pub prices: &'a [i64],
    pub rents: &'a [i64],
    pub absent: &'a [u32],
    pub load: &'a [u32],
    pub noise: u32,
}

/// A course: its lectures, and the slots in which it is available.
#[derive(Debug, Drop)]
struct Pupil {
    lectures: usize,
    open: Vec<usize>,
}

/// What every course needs, and the points of each room for each course.
#[derive(Debug, Drop)]
pub struct Terms {
    pupils: Vec<Pupil>,
    excess: Vec<i64>,
    rooms: usize,
    scale: i64,
}

/// What some places pay together.
#[derive(Clone, Copy, PartialEq, Eq, PartialOrd, Ord)]
struct Price {
    paid: i64,
    ties: u64,
}

impl Placing {
    /// Returns a placing without places.
    pub fn new(alloc: Global) -> Placing {
        Placing {
            cells: Vec::new(alloc),
            cheapest: Vec::new(alloc),
            chosen: Vec::new(alloc),
        }
    }
}

/// Puts the cheapest places first, and returns what so many of them pay together.
fn price_of(cells: &mut [Cell], lectures: usize) -> Price {
    cells.sort_unstable_by_key(|cell| (cell.paid, cell.tie));
    let mut price = Price { paid: 0, ties: 0 };
    for cell in cells.iter().take(lectures) {
        price.paid = price.paid.wrapping_add(cell.paid);
        price.ties = price.ties.saturating_add(u64::from(cell.tie));
    }
    price
}

/// Chooses the first places.
fn choose(cells: &[Cell], lectures: usize, chosen: &mut Vec<Cell>) -> Result<(), AllocError> {
    chosen.clear();
    for cell in cells.iter().take(lectures) {
        chosen.push(*cell)?;
    }
    Ok(())
}

/// Returns a number that differs from slot to slot.
fn noise_in(noise: u32, slot: usize) -> u32 {
    let spread = noise
        .wrapping_add(u32::try_from(slot).unwrap_or(0))
        .wrapping_mul(0x9E37_79B9);
    spread >> (u32::BITS - NOISE_BITS)
}

impl Offer<'_> {
    /// Returns the order of a place among those that pay the same.
    fn tie(&self, slot: usize, place: usize) -> u32 {
        let absent = self.absent.get(slot).copied().unwrap_or(0);
        let load = self.load.get(place).copied().unwrap_or(0);
        let first = absent.min(u32::from(u16::MAX)) << LOAD_BITS;
        first | (load.min(MAX_LOAD) << NOISE_BITS) | noise_in(self.noise, slot)
    }

    /// Returns a place, of which there are so many in a slot. The students without a seat pay `excess`.
    fn cell(&self, slot: usize, room: usize, rooms: usize, excess: i64) -> Cell {
        let place = slot.wrapping_mul(rooms).wrapping_add(room);
        let price = self.prices.get(slot).copied().unwrap_or(0);
        let rent = self.rents.get(place).copied().unwrap_or(0);
        Cell {
            paid: excess.wrapping_add(rent).wrapping_sub(price),
            tie: self.tie(slot, place),
            slot,
            room,
        }
    }
}

impl Terms {
    /// Returns what every course needs, where a point has `scale` units, or `None` if one has fewer slots than lectures, or there is no room.
    pub fn new(
        alloc: Global,
        instance: &Instance<'_>,
        scale: i64,
    ) -> Result<Option<Terms>, AllocError> {
        let mut terms = Terms {
            pupils: Vec::new(alloc),
            excess: Vec::new(alloc),
            rooms: instance.rooms() as usize,
            scale,
        };
        for course in 0..instance.courses() {
            let open = open_slots(alloc, instance, course)?;
            let lectures = instance.lectures(course) as usize;
            if open.len() < lectures || (terms.rooms == 0 && lectures > 0) {
                return Ok(None);
            }
            terms.pupils.push(Pupil { lectures, open })?;
            let students = instance.students(course);
            for room in 0..instance.rooms() {
                let excess = students.saturating_sub(instance.capacity(room));
                terms.excess.push(scale.wrapping_mul(i64::from(excess)))?;
            }
        }
        Ok(Some(terms))
    }

    /// Returns the number of steps of all terms: rooms in slots.
    pub fn steps(&self) -> u64 {
        let mut steps: u64 = 0;
        for pupil in &self.pupils {
            let cells = (pupil.open.len() as u64).saturating_mul(self.rooms as u64);
            steps = steps.saturating_add(cells);
        }
        steps
    }

    /// Fills in the places of a room, and for each slot the cheapest place of the rooms so far.
    fn fill(
        &self,
        pupil: &Pupil,
        (room, excess): (usize, i64),
        offer: &Offer<'_>,
        placing: &mut Placing,
    ) -> Result<(), AllocError> {
        placing.cells.clear();
        for (index, slot) in pupil.open.iter().enumerate() {
            let cell = offer.cell(*slot, room, self.rooms, excess);
            placing.cells.push(cell)?;
            if room == 0 {
                placing.cheapest.push(cell)?;
            } else if let Some(other) = placing.cheapest.get_mut(index) {
                if (cell.paid, cell.tie) < (other.paid, other.tie) {
                    *other = cell;
                }
            }
        }
        Ok(())
    }

    /// Returns the students without a seat in each room, as units of price.
    fn excess_of(&self, course: usize) -> &[i64] {
        let first = course.wrapping_mul(self.rooms);
        self.excess
            .get(first..first.wrapping_add(self.rooms))
            .unwrap_or(&[])
    }

    /// Returns the least that the lectures of a course pay, and chooses their places: all in one room, or a point more and each in any room.
    pub fn term(
        &self,
        course: usize,
        offer: &Offer<'_>,
        placing: &mut Placing,
    ) -> Result<i64, AllocError> {
        placing.chosen.clear();
        placing.cheapest.clear();
        let Some(pupil) = self.pupils.get(course) else {
            return Ok(0);
        };
        let mut best: Option<Price> = None;
        for (room, excess) in self.excess_of(course).iter().enumerate() {
            self.fill(pupil, (room, *excess), offer, placing)?;
            let price = price_of(&mut placing.cells, pupil.lectures);
            if best.is_none_or(|other| price < other) {
                best = Some(price);
                choose(&placing.cells, pupil.lectures, &mut placing.chosen)?;
            }
        }
        let least = best.map_or(0, |price| price.paid);
        if pupil.lectures < 2 {
            return Ok(least);
        }
        let apart = price_of(&mut placing.cheapest, pupil.lectures)
            .paid
            .wrapping_add(self.scale);
        if apart < least {
            choose(&placing.cheapest, pupil.lectures, &mut placing.chosen)?;
        }
        Ok(apart.min(least))
    }
}

/// Returns the slots in which a course is available.
fn open_slots(
    alloc: Global,
    instance: &Instance<'_>,
    course: u32,
) -> Result<Vec<usize>, AllocError> {
    let mut open = Vec::new(alloc);
    let mut slot: usize = 0;
    for day in 0..instance.days() {
        for period in 0..instance.periods() {
            if !instance.unavailable(course, day, period) {
                open.push(slot)?;
            }
            slot = slot.saturating_add(1);
        }
    }
    Ok(open)
}
