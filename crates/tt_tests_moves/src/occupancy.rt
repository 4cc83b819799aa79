//! A timetable with its counts and its score, tested by the library's calls.

ghost use Rattle.std.specs.Prelude.{◌<◌, ◌↔◌, IsTrue};

use crate::timetables::{occupied, text_of};
use std::alloc::Global;
use std::test::Fail;
use tt_instance::Instance;
use tt_instance_read::read_instance;
use tt_occupancy::Occupied;
use tt_testing_samples::{MINI, MINI_SOLUTION};

/// Returns the hard count and the cost.
fn pair(occupied: &Occupied<'_, '_>) -> (u64, u64) {
    let score = occupied.score();
    (score.hard(), score.cost())
}

/// Checks whether the day and the period exist.
fn is_period(instance: &Instance<'_>, day: u32, period: u32) -> bool
    ensures { IsTrue result ↔ (day < instance.now.days × period < instance.now.periods) }
{
    day < instance.days() && period < instance.periods()
}

fn in_room(occupied: &Occupied<'_, '_>, room: u32, day: u32, period: u32) -> Option<u32> {
    let instance = occupied.instance();
    if room >= instance.rooms() || !is_period(instance, day, period) {
        return None;
    }
    Some(occupied.in_room(room, day, period))
}

fn of_teacher(occupied: &Occupied<'_, '_>, teacher: u32, day: u32, period: u32) -> Option<u32> {
    let instance = occupied.instance();
    if teacher >= instance.teachers() || !is_period(instance, day, period) {
        return None;
    }
    Some(occupied.of_teacher(teacher, day, period))
}

fn of_curriculum(
    occupied: &Occupied<'_, '_>,
    curriculum: u32,
    day: u32,
    period: u32,
) -> Option<u32> {
    let instance = occupied.instance();
    if curriculum >= instance.curricula() || !is_period(instance, day, period) {
        return None;
    }
    Some(occupied.of_curriculum(curriculum, day, period))
}

fn of_course(occupied: &Occupied<'_, '_>, course: u32, day: u32, period: u32) -> Option<u32> {
    let instance = occupied.instance();
    if course >= instance.courses() || !is_period(instance, day, period) {
        return None;
    }
    Some(occupied.of_course(course, day, period))
}

fn on_day(occupied: &Occupied<'_, '_>, course: u32, day: u32) -> Option<u32> {
    let instance = occupied.instance();
    if course >= instance.courses() || day >= instance.days() {
        return None;
    }
    Some(occupied.on_day(course, day))
}

fn course_in_room(occupied: &Occupied<'_, '_>, course: u32, room: u32) -> Option<u32> {
    let instance = occupied.instance();
    if course >= instance.courses() || room >= instance.rooms() {
        return None;
    }
    Some(occupied.course_in_room(course, room))
}

/// Returns the hard count and the cost after an entry is moved.
fn moved(
    occupied: &mut Occupied<'_, '_>,
    entry: u32,
    room: u32,
    day: u32,
    period: u32,
) -> Option<(u64, u64)> {
    let instance = occupied.instance();
    if room >= instance.rooms()
        || !is_period(instance, day, period)
        || entry >= occupied.table().len() as u32
    {
        return None;
    }
    occupied.move_entry(entry, room, day, period);
    Some(pair(occupied))
}

/// Returns the hard count and the cost after two entries have changed places.
fn swapped(occupied: &mut Occupied<'_, '_>, first: u32, second: u32) -> Option<(u64, u64)> {
    let entries = occupied.table().len() as u32;
    if first >= entries || second >= entries {
        return None;
    }
    occupied.swap_entries(first, second);
    Some(pair(occupied))
}

/// Returns counts of some entries.
fn counts(occupied: &Occupied<'_, '_>) -> [Option<u32>; 6] {
    [
        in_room(occupied, 0, 0, 2),
        of_teacher(occupied, 0, 0, 0),
        of_curriculum(occupied, 0, 0, 1),
        of_course(occupied, 1, 0, 2),
        on_day(occupied, 0, 0),
        course_in_room(occupied, 0, 0),
    ]
}

/// Returns the hard count and cost of Mini's solution, and counts of some of its entries.
fn mini_counts(alloc: Global) -> Result<((u64, u64), [Option<u32>; 6]), Fail> {
    let instance = read_instance(alloc, MINI.as_bytes())?;
    let occupied = occupied(alloc, &instance, MINI_SOLUTION)?;
    Ok((pair(&occupied), counts(&occupied)))
}

#[test]
fn counts_of_entries(rt: HostRuntime) -> Result<(), Fail> {
    let (pair, counts) = mini_counts(rt.alloc())?;
    assert_eq!(rt; pair, (0, 5));
    let wanted = [Some(1), Some(1), Some(0), Some(1), Some(1), Some(1)];
    assert_eq!(rt; counts, wanted);
    Ok(())
}

/// Returns the pair after a move, after a swap, and after an entry has changed places with itself.
fn pairs(occupied: &mut Occupied<'_, '_>) -> [Option<(u64, u64)>; 3] {
    [
        moved(occupied, 1, 0, 0, 1),
        swapped(occupied, 0, 1),
        swapped(occupied, 0, 0),
    ]
}

/// Returns the pairs of Mini's solution after a move, a swap and a swap with itself, and a count and the text afterwards.
fn mini_pairs(alloc: Global) -> Result<([Option<(u64, u64)>; 3], Option<u32>, String), Fail> {
    let instance = read_instance(alloc, MINI.as_bytes())?;
    let mut occupied = occupied(alloc, &instance, MINI_SOLUTION)?;
    let pairs = pairs(&mut occupied);
    let count = in_room(&occupied, 0, 0, 2);
    Ok((pairs, count, text_of(alloc, &occupied)?))
}

#[test]
fn moves_and_swaps(rt: HostRuntime) -> Result<(), Fail> {
    let (pairs, count, text) = mini_pairs(rt.alloc())?;
    assert_eq!(rt; pairs, [Some((0, 1)), Some((0, 1)), Some((0, 1))]);
    assert_eq!(rt; (count, text.as_str()), (Some(0), "a R 0 1\nb R 0 0\n"));
    Ok(())
}
