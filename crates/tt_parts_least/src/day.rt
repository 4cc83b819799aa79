//! A lower bound of a day's cost, by its lectures.

use crate::allowance::Allowance;
use crate::layout::Layout;
use crate::sets::Set;
use std::alloc::{AllocError, Global};
use tt_instance::{ISOLATED_COST, MISSING_DAY_COST};
use tt_watch::Watch;

/// The value of a place without an entry.
pub const NONE: u8 = u8::MAX;

/// The lectures of a day, packed and as a place, their number, and a lower bound of their cost.
#[derive(Clone, Copy)]
pub struct Vector {
    pub packed: u64,
    pub place: u32,
    pub lectures: u32,
    pub cost: u32,
}

/// The days that cost less than a limit: their vectors, the cheapest first, and their costs by place.
#[derive(Drop)]
pub struct Table {
    pub vectors: Vec<Vector>,
    pub costs: Vec<u8>,
}

/// The first periods of a day: their lectures, their courses, their cost so far, and the curricula of the last period: all of them, and those
/// that were not in the period before it.
#[derive(Clone, Copy)]
struct Morning {
    packed: u64,
    place: u32,
    lectures: u32,
    courses: u32,
    cost: u32,
    occupied: u64,
    pending: u64,
}

impl Morning {
    /// The state before the first period.
    const EMPTY: Morning = Morning {
        packed: 0,
        place: 0,
        lectures: 0,
        courses: 0,
        cost: 0,
        occupied: 0,
        pending: 0,
    };

    /// Returns the morning with a set in the next period, or `None` if it costs the limit or more, or a course has too many lectures.
    fn with(&self, layout: &Layout, limit: u32, set: &Set) -> Option<Morning> {
        let packed = self.packed.wrapping_add(set.packed);
        let left = (layout.full | layout.guard).wrapping_sub(packed);
        if left & layout.guard != layout.guard {
            return None;
        }
        let singles = (self.pending & !set.curricula).count_ones();
        let further = (self.courses & set.courses & layout.tight).count_ones();
        let cost = self
            .cost
            .wrapping_add(ISOLATED_COST.wrapping_mul(singles))
            .wrapping_add(MISSING_DAY_COST.wrapping_mul(further));
        if limit <= cost {
            return None;
        }
        Some(Morning {
            packed,
            place: self.place.wrapping_add(set.place),
            lectures: self.lectures.wrapping_add(set.courses.count_ones()),
            courses: self.courses | set.courses,
            cost,
            occupied: set.curricula,
            pending: set.curricula & !self.occupied,
        })
    }
}

impl Table {
    /// Enters a whole day.
    fn enter(&mut self, limit: u32, day: &Morning) -> Result<(), AllocError> {
        let cost = day
            .cost
            .wrapping_add(ISOLATED_COST * day.pending.count_ones());
        if limit <= cost {
            return Ok(());
        }
        let Some(entry) = self.costs.get_mut(day.place as usize) else {
            return Ok(());
        };
        if *entry == NONE {
            self.vectors.push(Vector {
                packed: day.packed,
                place: day.place,
                lectures: day.lectures,
                cost,
            })?;
        }
        *entry = (*entry).min((cost % 256) as u8);
        Ok(())
    }

    /// Enters all days that begin like a morning. Each set that is tried uses up some of the work; returns `false` if it is used up.
    fn enter_days<W: Watch>(
        &mut self,
        layout: &Layout,
        limit: u32,
        periods: &[Vec<Set>],
        morning: &Morning,
        work: &mut Allowance<'_, W>,
    ) -> Result<bool, AllocError> {
        let Some((sets, later)) = periods.split_first() else {
            self.enter(limit, morning)?;
            return Ok(true);
        };
        if !work.spend(sets.len() as u64) {
            return Ok(false);
        }
        for set in sets {
            if let Some(next) = morning.with(layout, limit, set) {
                if !self.enter_days(layout, limit, later, &next, work)? {
                    return Ok(false);
                }
            }
        }
        Ok(true)
    }

    /// Returns the table of a day whose periods can have these sets, or `None` if the work is used up.
    pub fn new<W: Watch>(
        alloc: Global,
        layout: &Layout,
        limit: u32,
        periods: &[Vec<Set>],
        work: &mut Allowance<'_, W>,
    ) -> Result<Option<Table>, AllocError> {
        let mut table = Table {
            vectors: Vec::new(alloc),
            costs: vec![in alloc; NONE; layout.places as usize]?,
        };
        if !table.enter_days(layout, limit, periods, &Morning::EMPTY, work)? {
            return Ok(None);
        }
        for vector in table.vectors.iter_mut() {
            if let Some(cost) = table.costs.get(vector.place as usize) {
                vector.cost = u32::from(*cost);
            }
        }
        table
            .vectors
            .sort_unstable_by_key(|vector| (vector.cost, vector.packed));
        Ok(Some(table))
    }
}
