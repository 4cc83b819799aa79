//! Groups of courses that compete for rooms. Nothing is proved about the choice.

ghost use Rattle.std.specs.Prelude.{◌<◌, length};

use crate::grid::Grid;
use crate::group_prices::{Pricing, price_group};
use crate::pool::CoursePool;
use crate::prices::{has_seats, price_of};
use crate::rivals::rivals_of;
use std::alloc::{AllocError, Global};
use tt_instance::Instance;
use tt_leaf::Claim;
use tt_leaf_rules::{claim_value, slot_count};
use tt_path::Path;

/// The maximum number of cells of an instance in which groups are searched for.
const MOST_CELLS: u64 = 8192;

/// The maximum number of groups.
const MOST_GROUPS: usize = 8;

/// The prices of groups without a course in common.
#[derive(Drop)]
pub struct Crowd {
    pub pricings: Vec<Pricing>,
    /// The courses that are in no group.
    left: Vec<bool>,
}

impl Crowd {
    /// Returns whether a course is in no group.
    pub fn is_alone(&self, course: u32) -> bool {
        self.left.get(course as usize).copied().unwrap_or(true)
    }
}

/// Removes courses from a group as long as the group and the course have a higher value apart.
fn shrink(
    alloc: Global,
    pool: &CoursePool<'_, '_>,
    members: &mut [bool],
) -> Result<Pricing, AllocError> {
    let mut best = price_group(alloc, pool.instance, pool.grid, members)?;
    for course in 0..members.len() {
        if !members[course] {
            continue;
        }
        members[course] = false;
        let without = price_group(alloc, pool.instance, pool.grid, members)?;
        if without.worth.saturating_add(pool.worth_of(course)) > best.worth {
            best = without;
        } else {
            members[course] = true;
        }
    }
    Ok(best)
}

/// Removes the members of a group from the courses that are left.
fn take_out(left: &mut [bool], members: &[bool]) {
    for (course, is_left) in left.iter_mut().enumerate() {
        if members.get(course).copied().unwrap_or(false) {
            *is_left = false;
        }
    }
}

/// A group, and by how much its value exceeds that of its courses apart.
#[derive(Drop)]
struct Group {
    members: Vec<bool>,
    gain: u64,
}

fn group_of(
    alloc: Global,
    pool: &CoursePool<'_, '_>,
    members: Vec<bool>,
) -> Result<Group, AllocError> {
    let pricing = price_group(alloc, pool.instance, pool.grid, members.as_slice())?;
    let gain = pricing
        .worth
        .saturating_sub(pool.worth_apart(members.as_slice()));
    Ok(Group { members, gain })
}

/// Returns the best group that grows from one of the courses left, for courses that need more seats than this many, or `found` if none is better.
fn better_group(
    alloc: Global,
    pool: &CoursePool<'_, '_>,
    left: &[bool],
    seats: Option<u32>,
    found: Group,
) -> Result<Group, AllocError> {
    let mut best = found;
    for (seed, is_left) in left.iter().enumerate() {
        if !*is_left {
            continue;
        }
        if let Some(members) = rivals_of(alloc, pool.instance, pool.grid, left, seats, seed)? {
            let group = group_of(alloc, pool, members)?;
            if best.gain < group.gain {
                best = group;
            }
        }
    }
    Ok(best)
}

/// Returns the best of the groups that grow from one of the courses left, and of all these courses together.
fn best_group(
    alloc: Global,
    pool: &CoursePool<'_, '_>,
    left: &[bool],
) -> Result<Group, AllocError> {
    let all = left.to_vec(alloc)?;
    let whole = group_of(alloc, pool, all)?;
    let mut best = better_group(alloc, pool, left, None, whole)?;
    for room in 0..pool.instance.rooms() {
        let seats = Some(pool.instance.capacity(room));
        best = better_group(alloc, pool, left, seats, best)?;
    }
    Ok(best)
}

/// Adds a group of the courses left; returns whether one was found whose value is higher than that of its courses apart.
fn add_group(
    alloc: Global,
    pool: &CoursePool<'_, '_>,
    crowd: &mut Crowd,
) -> Result<bool, AllocError> {
    let mut members = best_group(alloc, pool, crowd.left.as_slice())?.members;
    let pricing = shrink(alloc, pool, members.as_mut_slice())?;
    if pricing.worth <= pool.worth_apart(members.as_slice()) {
        return Ok(false);
    }
    take_out(crowd.left.as_mut_slice(), members.as_slice());
    crowd.pricings.push(pricing)?;
    Ok(true)
}

fn worth_alone<'i, P: Path<'i>>(alloc: Global, path: &P, course: u32) -> Result<u64, AllocError>
    requires { course < length (P.problem path.now).courses }
{
    if has_seats(path, course) {
        return Ok(0);
    }
    match price_of(alloc, path, course)? {
        Some(price) => Ok(claim_value(path, &Claim::Capacity { course, price })),
        None => Ok(0),
    }
}

/// Returns the value of each course alone.
fn worths_alone<'i, P: Path<'i>>(alloc: Global, path: &P) -> Result<Vec<u64>, AllocError> {
    let mut alone = Vec::new(alloc);
    for course in 0..path.instance().courses() {
        alone.push(worth_alone(alloc, path, course)?)?;
    }
    Ok(alone)
}

/// Returns whether an instance is small enough to search for groups.
fn is_small(instance: &Instance<'_>) -> bool {
    u64::from(instance.courses())
        .saturating_mul(u64::from(instance.rooms()))
        .saturating_mul(u64::from(slot_count(instance)))
        <= MOST_CELLS
}

/// Returns groups of courses with a higher value together; `None` if there is no such group or the instance is large.
pub fn find_crowds<'i, P: Path<'i>>(alloc: Global, path: &P) -> Result<Option<Crowd>, AllocError> {
    let instance = path.instance();
    if !is_small(instance) {
        return Ok(None);
    }
    let grid = Grid::new(alloc, path)?;
    let alone = worths_alone(alloc, path)?;
    let pool = CoursePool {
        instance,
        grid: &grid,
        alone: alone.as_slice(),
    };
    let mut crowd = Crowd {
        pricings: Vec::new(alloc),
        left: vec![in alloc; true; instance.courses() as usize]?,
    };
    for _ in 0..MOST_GROUPS {
        if !add_group(alloc, &pool, &mut crowd)? {
            break;
        }
    }
    if crowd.pricings.is_empty() {
        return Ok(None);
    }
    Ok(Some(crowd))
}
