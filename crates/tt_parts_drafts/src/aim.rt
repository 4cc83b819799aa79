//! What all climbs of a search have in common.

use std::alloc::Global;
use tt_instance::Instance;
use tt_parts_priced::Terms;

/// The number of units of price in a cost point.
pub const SCALE: u32 = 1_000;

/// The instance, what its courses need, the rents at which a climb begins, the known cost, the effort, and the numbers of courses, slots
/// and rooms.
#[derive(Clone, Copy)]
pub struct Aim<'s, 'i> {
    pub alloc: Global,
    pub instance: &'s Instance<'i>,
    pub terms: &'s Terms,
    /// The rents of all rooms slot by slot; none if the rooms take no part.
    pub rents: &'s [i64],
    pub target: Option<u64>,
    pub effort: u64,
    pub courses: usize,
    pub slots: usize,
    pub rooms: usize,
}

/// What a bound without a known cost is to become: this share of what it is, and some points.
const HOPED: (i64, i64) = (5, 4);

/// The points that are hoped for beyond that.
const MORE: i64 = 4;

/// Returns points as units of price.
pub fn units(points: u64) -> i64 {
    i64::try_from(points)
        .unwrap_or(i64::MAX)
        .saturating_mul(i64::from(SCALE))
}

/// Returns units of price as points, rounded up; 0 if there are none.
pub fn points(units: i64) -> u64 {
    u64::try_from(units).unwrap_or(0).div_ceil(u64::from(SCALE))
}

impl Aim<'_, '_> {
    /// Returns the units at which a climb aims that has reached so many.
    pub fn wanted(&self, best: i64) -> i64 {
        match self.target {
            Some(points) => units(points),
            None => {
                let (more, of) = HOPED;
                let hoped = best.max(0).saturating_mul(more) / of;
                hoped.saturating_add(units(MORE.unsigned_abs()))
            }
        }
    }

    /// Checks whether so many units prove the known cost.
    pub fn is_reached(&self, best: i64) -> bool {
        match self.target {
            Some(points) => units(points).saturating_sub(i64::from(SCALE)) < best,
            None => false,
        }
    }

    /// Returns the place of a course in a slot.
    pub fn place(&self, course: usize, slot: usize) -> usize {
        course.wrapping_mul(self.slots).wrapping_add(slot)
    }
}
