//! What a group has chosen in its last steps, on average.

use crate::fixed::{ONE, whole};
use std::alloc::{AllocError, Global};

/// The number of bits of the share that a step has in an average.
const SHARE: u32 = 5;

/// How often a group chose each course in each slot, slot by slot, and how far it was from the lectures of each course, as numbers with
/// fractions.
#[derive(Drop)]
pub struct Habits {
    chosen: Vec<i64>,
    off: Vec<i64>,
}

/// Checks whether the course with this index is in a set.
pub fn is_in(set: u64, index: usize) -> bool {
    (set >> (index % 64)) & 1 == 1
}

/// Moves an average towards a number.
fn approach(average: &mut i64, number: i64) {
    *average = average.saturating_add(number.saturating_sub(*average) >> SHARE);
}

impl Habits {
    /// Returns averages of 0 of so many courses.
    pub fn new(alloc: Global, width: usize, slots: usize) -> Result<Habits, AllocError> {
        Ok(Habits {
            chosen: vec![in alloc; 0i64; width.saturating_mul(slots)]?,
            off: vec![in alloc; 0i64; width]?,
        })
    }

    /// Notes the sets that the group chose in all slots. The courses have so many lectures.
    pub fn note(&mut self, plan: &[u64], lectures: &[u32]) {
        let width = lectures.len();
        for (place, average) in self.chosen.iter_mut().enumerate() {
            let index = place.checked_rem(width).unwrap_or(0);
            let slot = place.checked_div(width).unwrap_or(0);
            let set = plan.get(slot).copied().unwrap_or(0);
            approach(average, if is_in(set, index) { ONE } else { 0 });
        }
        for (index, (average, wanted)) in self.off.iter_mut().zip(lectures).enumerate() {
            let count = plan.iter().filter(|set| is_in(**set, index)).count();
            let more = i64::try_from(count)
                .unwrap_or(0)
                .saturating_sub(i64::from(*wanted));
            approach(average, whole(more.max(more.saturating_neg())));
        }
    }

    /// Returns how far the group was from the lectures of the course with this index.
    pub fn off(&self, index: usize) -> i64 {
        self.off.get(index).copied().unwrap_or(0)
    }

    /// Returns how often the group chose the course with this index in a slot.
    pub fn chosen(&self, index: usize, slot: usize) -> i64 {
        let place = slot.wrapping_mul(self.off.len()).wrapping_add(index);
        self.chosen.get(place).copied().unwrap_or(0)
    }
}
