//! The number of members of each curriculum with a live cell in each period. Nothing is proved about the tables.

ghost use Rattle.std.specs.Prelude.{◌<◌, length};

use crate::prospects::{DayPeriods, Prospects, bit_of};
use std::alloc::{AllocError, Global};
use tt_instance::Instance;

/// The curricula of a path, period by period.
#[derive(Drop)]
pub struct Neighbours {
    days: u32,
    periods: u32,
    /// The pinned periods as bits, by curriculum and day.
    pinned: Vec<u64>,
    /// The number of live members, by curriculum, day and period.
    live: Vec<u32>,
}

fn add_bit(counts: &mut [u32], place: usize, word: u64, period: u32) {
    if word & bit_of(period) != 0
        && let Some(count) = counts.get_mut(place)
    {
        *count = count.saturating_add(1);
    }
}

impl Neighbours {
    fn none(alloc: Global, instance: &Instance<'_>) -> Result<Neighbours, AllocError> {
        let days = instance.days();
        let periods = instance.periods();
        let rows = (instance.curricula() as usize).saturating_mul(days as usize);
        Ok(Neighbours {
            days,
            periods,
            pinned: vec![in alloc; 0u64; rows]?,
            live: vec![in alloc; 0u32; rows.saturating_mul(periods as usize)]?,
        })
    }

    fn row(&self, curriculum: u32, day: u32) -> usize {
        (curriculum as usize)
            .saturating_mul(self.days as usize)
            .saturating_add(day as usize)
    }

    /// Counts a member on a day.
    fn count(&mut self, curriculum: u32, day: u32, member: DayPeriods) {
        let row = self.row(curriculum, day);
        if let Some(pinned) = self.pinned.get_mut(row) {
            *pinned |= member.pinned;
        }
        let first = row.saturating_mul(self.periods as usize);
        for period in 0..self.periods {
            let place = first.saturating_add(period as usize);
            add_bit(self.live.as_mut_slice(), place, member.live(), period);
        }
    }

    /// Counts a member.
    fn add(&mut self, prospects: &Prospects, curriculum: u32, course: u32) {
        for day in 0..self.days {
            self.count(curriculum, day, prospects.on(course, day));
        }
    }

    fn add_all(&mut self, instance: &Instance<'_>, prospects: &Prospects, curriculum: u32)
        requires { curriculum < length instance.now.curricula }
    {
        for course in instance.members(curriculum) {
            self.add(prospects, curriculum, *course);
        }
    }

    /// Counts the members that have live cells.
    pub fn new(
        alloc: Global,
        instance: &Instance<'_>,
        prospects: &Prospects,
    ) -> Result<Neighbours, AllocError> {
        let mut found = Neighbours::none(alloc, instance)?;
        for curriculum in 0..instance.curricula() {
            found.add_all(instance, prospects, curriculum);
        }
        Ok(found)
    }

    /// Returns the number of members with a live cell in a period.
    pub fn live(&self, curriculum: u32, day: u32, period: u32) -> u32 {
        if period >= self.periods {
            return 0;
        }
        let place = self
            .row(curriculum, day)
            .saturating_mul(self.periods as usize)
            .saturating_add(period as usize);
        self.live.get(place).copied().unwrap_or(0)
    }

    /// Returns the number of members with a live cell in the periods before and after a period.
    pub fn live_around(&self, curriculum: u32, day: u32, period: u32) -> u32 {
        let before = match period.checked_sub(1) {
            Some(earlier) => self.live(curriculum, day, earlier),
            None => 0,
        };
        before.saturating_add(self.live(curriculum, day, period.saturating_add(1)))
    }

    /// Returns the pinned periods of a curriculum on a day, as bits.
    pub fn pinned(&self, curriculum: u32, day: u32) -> u64 {
        self.pinned
            .get(self.row(curriculum, day))
            .copied()
            .unwrap_or(0)
    }
}
