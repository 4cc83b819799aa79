//! Prices of one group of courses that compete for rooms. Nothing is proved about the choice.

ghost use Rattle.std.specs.Prelude.{◌<◌, length};

use crate::grid::Grid;
use std::alloc::{AllocError, Global};
use tt_instance::Instance;

/// Prices of the courses of a group and of rooms, by number, 0 for none; and their value.
#[derive(Drop)]
pub struct Pricing {
    pub courses: Vec<u32>,
    pub rooms: Vec<u32>,
    pub worth: u64,
}

fn push_capacities(levels: &mut Vec<u32>, instance: &Instance<'_>) -> Result<(), AllocError> {
    for room in 0..instance.rooms() {
        levels.push(instance.capacity(room))?;
    }
    Ok(())
}

fn push_students(
    levels: &mut Vec<u32>,
    instance: &Instance<'_>,
    members: &[bool],
) -> Result<(), AllocError> {
    for course in 0..instance.courses() {
        if has(members, course) {
            levels.push(instance.students(course))?;
        }
    }
    Ok(())
}

/// Returns the levels of seats between which prices rise: the seats of rooms and the seats that courses of the group need.
fn levels(
    alloc: Global,
    instance: &Instance<'_>,
    members: &[bool],
) -> Result<Vec<u32>, AllocError> {
    let mut levels = Vec::new(alloc);
    push_capacities(&mut levels, instance)?;
    push_students(&mut levels, instance, members)?;
    levels.sort()?;
    Ok(levels)
}

fn has(members: &[bool], course: u32) -> bool {
    members.get(course as usize).copied().unwrap_or(false)
}

/// Counts the lectures of the group with at least this many students.
fn demand(instance: &Instance<'_>, members: &[bool], level: u32) -> u64 {
    let mut total: u64 = 0;
    for course in 0..instance.courses() {
        if has(members, course) && level <= instance.students(course) {
            total = total.saturating_add(u64::from(instance.lectures(course)));
        }
    }
    total
}

/// Counts the open periods of the rooms with at least this many seats.
fn supply(instance: &Instance<'_>, open: &[u32], level: u32) -> u64 {
    let mut total: u64 = 0;
    for room in 0..instance.rooms() {
        if level <= instance.capacity(room) {
            total = total.saturating_add(u64::from(number_at(open, room as usize)));
        }
    }
    total
}

fn number_at(numbers: &[u32], place: usize) -> u32 {
    numbers.get(place).copied().unwrap_or(0)
}

/// Raises the prices of the rooms with at least this many seats.
fn raise(instance: &Instance<'_>, prices: &mut [u32], level: u32, by: u32) {
    for room in 0..instance.rooms() {
        if level <= instance.capacity(room)
            && let Some(price) = prices.get_mut(room as usize)
        {
            *price = price.saturating_add(by);
        }
    }
}

/// Computes prices of rooms: they rise with the seats at each level where the group has more lectures than the larger rooms have periods.
fn room_prices(
    alloc: Global,
    instance: &Instance<'_>,
    members: &[bool],
    open: &[u32],
) -> Result<Vec<u32>, AllocError> {
    let mut prices = vec![in alloc; 0u32; instance.rooms() as usize]?;
    let mut below = 0;
    for level in levels(alloc, instance, members)? {
        if below < level && demand(instance, members, level) > supply(instance, open, level) {
            raise(
                instance,
                prices.as_mut_slice(),
                level,
                level.saturating_sub(below),
            );
        }
        below = level;
    }
    Ok(prices)
}

/// Returns the maximum price of a course that its excess and the room's price cover in each open room.
fn course_price(instance: &Instance<'_>, grid: &Grid, rooms: &[u32], course: u32) -> u32
    requires { course < length instance.now.courses }
{
    let mut least: Option<u32> = None;
    for room in 0..instance.rooms() {
        if grid.is_open(course as usize, room as usize) {
            let excess = instance
                .students(course)
                .saturating_sub(instance.capacity(room));
            let covered = excess.saturating_add(number_at(rooms, room as usize));
            least = Some(match least {
                Some(price) => price.min(covered),
                None => covered,
            });
        }
    }
    least.unwrap_or(0)
}

fn course_prices(
    alloc: Global,
    instance: &Instance<'_>,
    grid: &Grid,
    members: &[bool],
    rooms: &[u32],
) -> Result<Vec<u32>, AllocError> {
    let mut prices = Vec::new(alloc);
    for course in 0..instance.courses() {
        prices.push(if has(members, course) {
            course_price(instance, grid, rooms, course)
        } else {
            0
        })?;
    }
    Ok(prices)
}

fn open_periods(alloc: Global, grid: &Grid, members: &[bool]) -> Result<Vec<u32>, AllocError> {
    let mut open = Vec::new(alloc);
    for room in 0..grid.rooms() {
        open.push(grid.open_periods(members, room))?;
    }
    Ok(open)
}

/// Returns the sum of the prices of all lectures of the courses.
fn income(instance: &Instance<'_>, courses: &[u32]) -> u64 {
    let mut total: u64 = 0;
    for course in 0..instance.courses() {
        let price = u64::from(number_at(courses, course as usize));
        total = total.saturating_add(u64::from(instance.lectures(course)).saturating_mul(price));
    }
    total
}

/// Returns the sum of the prices of all open periods of the rooms.
fn rent(rooms: &[u32], open: &[u32]) -> u64 {
    let mut total: u64 = 0;
    for (room, price) in rooms.iter().enumerate() {
        let periods = u64::from(number_at(open, room));
        total = total.saturating_add(u64::from(*price).saturating_mul(periods));
    }
    total
}

/// Computes prices of a group, and their value.
pub fn price_group(
    alloc: Global,
    instance: &Instance<'_>,
    grid: &Grid,
    members: &[bool],
) -> Result<Pricing, AllocError> {
    let open = open_periods(alloc, grid, members)?;
    let rooms = room_prices(alloc, instance, members, open.as_slice())?;
    let courses = course_prices(alloc, instance, grid, members, rooms.as_slice())?;
    let worth = income(instance, courses.as_slice()).saturating_sub(rent(
        rooms.as_slice(),
        open.as_slice(),
    ));
    Ok(Pricing {
        courses,
        rooms,
        worth,
    })
}
