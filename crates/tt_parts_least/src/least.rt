//! The lowest cost of a group.

use crate::allowance::Allowance;
use crate::days::{Days, days_of};
use crate::fold::{Fold, Width};
use crate::layout::Layout;
use crate::sets::{Set, sets_of};
use std::alloc::{AllocError, Global};
use tt_instance::Instance;
use tt_watch::Watch;

/// The maximum distance of a group's value above its base cost.
const VALUE: u32 = 127;

/// The first limit of the search: so much more than what is enough.
const FIRST: u64 = 24;

/// The widths of the narrow folds.
const WIDTHS: [usize; 3] = [200, 800, 3_200];

/// The moves from each state in a narrow fold.
const MOVES: usize = 200;

/// The aim for a group: a cost of at most `enough` need not be known exactly, and the group is known to cost at most `most`.
#[derive(Clone, Copy)]
pub struct Aim {
    pub enough: u64,
    pub most: u64,
}

/// The lowest cost of a group; if it isn't exact, it is not below the lowest cost, and no more than what was enough.
#[derive(Clone, Copy)]
pub struct Least {
    pub cost: u64,
    pub is_exact: bool,
}

/// A group, ready for its tables.
#[derive(Drop)]
struct Ready<'s, 'i> {
    alloc: Global,
    instance: &'s Instance<'i>,
    layout: &'s Layout,
    sets: &'s [Set],
    enough: u32,
}

impl Ready<'_, '_> {
    /// Returns the lowest cost that a narrow fold finds below the limit; else the limit.
    fn narrow<W: Watch>(
        &self,
        days: &Days,
        limit: u32,
        work: &mut Allowance<'_, W>,
    ) -> Result<Option<u32>, AllocError> {
        for states in WIDTHS {
            let fold = Fold {
                layout: self.layout,
                days,
                limit,
                width: Width {
                    states,
                    moves: MOVES,
                },
            };
            match fold.run(self.alloc, work)? {
                Some(found) if found == limit => {}
                other => return Ok(other),
            }
        }
        Ok(Some(limit))
    }

    /// Returns the lowest cost beyond the base cost, if it is below the limit; else the limit. A cost that is enough may be too high.
    fn least<W: Watch>(
        &self,
        limit: u32,
        work: &mut Allowance<'_, W>,
    ) -> Result<Option<u32>, AllocError> {
        let days = days_of(
            self.alloc,
            self.instance,
            self.layout,
            self.sets,
            limit,
            work,
        )?;
        let Some(days) = days else {
            return Ok(None);
        };
        let found = match self.narrow(&days, limit, work)? {
            Some(found) if found > self.enough => found,
            other => return Ok(other),
        };
        let fold = Fold {
            layout: self.layout,
            days: &days,
            limit: found,
            width: Width::FULL,
        };
        fold.run(self.alloc, work)
    }
}

/// Returns the number of cost points beyond a base cost, capped by what a table can have.
fn beyond(points: u64, base: u64) -> u32 {
    let beyond = points.saturating_sub(base).min(u64::from(VALUE));
    (beyond % 256) as u32
}

/// Returns the lowest cost of a group. Each step uses up some of the work: a set that is tried in a period of a day, or a day that is tried from
/// a state of the week. Returns `None` if the group is too large, or the work is used up.
pub fn least_cost<W: Watch>(
    alloc: Global,
    instance: &Instance<'_>,
    curricula: &[u32],
    courses: &[u32],
    aim: Aim,
    work: &mut Allowance<'_, W>,
) -> Result<Option<Least>, AllocError> {
    let Some(layout) = Layout::new(alloc, instance, curricula, courses)? else {
        return Ok(None);
    };
    let Some(sets) = sets_of(alloc, instance, &layout, curricula)? else {
        return Ok(None);
    };
    let ready = Ready {
        alloc,
        instance,
        layout: &layout,
        sets: &sets,
        enough: beyond(aim.enough, layout.base),
    };
    let most = beyond(aim.most, layout.base);
    let first = beyond(aim.enough.saturating_add(FIRST), layout.base).min(most);
    for limit in [first, most] {
        let Some(found) = ready.least(limit, work)? else {
            return Ok(None);
        };
        if found < limit || limit == most {
            let cost = layout.base.saturating_add(u64::from(found));
            let is_exact = found > ready.enough || found == 0;
            return Ok(Some(Least { cost, is_exact }));
        }
    }
    Ok(None)
}
