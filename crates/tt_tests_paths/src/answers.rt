//! The answers of a path, combined into one number.

use crate::dice::{Dice, Ranges};
use tt_path::{Cell, Fact, Path, Who};

/// Returns a number that depends on the answers so far and another answer.
fn mixed(reported: u64, answer: u64) -> u64 {
    (reported ^ answer)
        .wrapping_mul(1_099_511_628_211)
        .wrapping_add(1)
}

/// Checks whether a cell is dead; `false` if it isn't a cell of the instance.
fn is_dead<'i, P: Path<'i>>(path: &P, cell: Cell) -> bool {
    let instance = path.instance();
    cell.course < instance.courses()
        && cell.room < instance.rooms()
        && cell.day < instance.days()
        && cell.period < instance.periods()
        && path.dead(cell)
}

/// Returns whether a course has a live cell in a period, and its least excess in it.
fn live_of<'i, P: Path<'i>>(path: &P, course: u32, day: u32, period: u32) -> (bool, Option<u64>) {
    let instance = path.instance();
    if course >= instance.courses() || day >= instance.days() || period >= instance.periods() {
        return (false, None);
    }
    (
        path.live_period(course, day, period),
        path.least_excess(course, day, period),
    )
}

/// Checks whether a course has a live period on a day.
fn is_live_on<'i, P: Path<'i>>(path: &P, course: u32, day: u32) -> bool {
    let instance = path.instance();
    course < instance.courses() && day < instance.days() && path.live_day(course, day)
}

/// Checks whether a period is pinned for a course.
fn is_pinned<'i, P: Path<'i>>(path: &P, course: u32, day: u32, period: u32) -> bool {
    let instance = path.instance();
    course < instance.courses()
        && day < instance.days()
        && period < instance.periods()
        && path.pinned(Who::Course(course), day, period)
}

/// Checks whether a period is pinned for a curriculum.
fn is_pinned_for<'i, P: Path<'i>>(path: &P, curriculum: u32, day: u32, period: u32) -> bool {
    let instance = path.instance();
    curriculum < instance.curricula()
        && day < instance.days()
        && period < instance.periods()
        && path.pinned(Who::Curriculum(curriculum), day, period)
}

/// Returns the pinned periods of a curriculum on a day.
fn pinned_for<'i, P: Path<'i>>(path: &P, curriculum: u32, day: u32) -> u64 {
    let instance = path.instance();
    if curriculum >= instance.curricula() || day >= instance.days() {
        return 0;
    }
    path.pinned_periods(Who::Curriculum(curriculum), day)
}

/// Checks whether a room is pinned for a course.
fn is_pinned_in<'i, P: Path<'i>>(path: &P, course: u32, room: u32) -> bool {
    let instance = path.instance();
    course < instance.courses() && room < instance.rooms() && path.pinned_room(course, room)
}

/// Returns the sets of a course on a day, in a period and in the block of a room, as one number.
fn words_reported<'i, P: Path<'i>>(path: &P, cell: Cell) -> u64 {
    let instance = path.instance();
    if cell.course >= instance.courses()
        || cell.room >= instance.rooms()
        || cell.day >= instance.days()
        || cell.period >= instance.periods()
    {
        return 0;
    }
    let block = cell.room / 64;
    let mut reported = path.live_periods(cell.course, cell.day);
    reported = mixed(
        reported,
        path.live_rooms(cell.course, cell.day, cell.period, block),
    );
    reported = mixed(
        reported,
        path.pinned_periods(Who::Course(cell.course), cell.day),
    );
    mixed(reported, path.pinned_rooms(cell.course, block))
}

/// Returns the newest fact.
fn newest<'i, P: Path<'i>>(path: &P) -> Option<Fact> {
    let depth = path.depth();
    if depth == 0 {
        return None;
    }
    Some(path.fact(depth - 1))
}

/// Returns the answers about one cell.
fn cell_reported<'i, P: Path<'i>>(path: &P, cell: Cell) -> u64 {
    let (live, excess) = live_of(path, cell.course, cell.day, cell.period);
    let excess = match excess {
        None => 0,
        Some(students) => students.wrapping_add(1),
    };
    let mut reported = mixed(excess, u64::from(live));
    reported = mixed(reported, words_reported(path, cell));
    reported = mixed(reported, u64::from(is_dead(path, cell)));
    reported = mixed(reported, u64::from(is_live_on(path, cell.course, cell.day)));
    reported = mixed(
        reported,
        u64::from(is_pinned(path, cell.course, cell.day, cell.period)),
    );
    mixed(
        reported,
        u64::from(is_pinned_in(path, cell.course, cell.room)),
    )
}

/// Returns the answers whether facts that are drawn from a seed are on the path.
fn standing_reported<'i, P: Path<'i>>(path: &P, ranges: Ranges, seed: u64) -> u64 {
    let mut dice = Dice { state: seed };
    let mut reported = 0;
    for _ in 0..8 {
        let fact = dice.fact(ranges);
        reported = mixed(reported, u64::from(path.has(&fact.pattern, fact.holds)));
    }
    reported
}

/// Returns the answers about the newest fact: whether it is on the path, and whether its contrary is.
fn newest_reported<'i, P: Path<'i>>(path: &P) -> u64 {
    match newest(path) {
        None => 0,
        Some(fact) => {
            let stands = path.has(&fact.pattern, fact.holds);
            let contrary = path.has(&fact.pattern, !fact.holds);
            mixed(u64::from(stands), u64::from(contrary))
        }
    }
}

/// Returns the answers about the cells of one course in one room.
fn cells_reported<'i, P: Path<'i>>(path: &P, course: u32, room: u32, ranges: Ranges) -> u64 {
    let mut reported = 0;
    for day in 0..ranges.days {
        for period in 0..ranges.periods {
            let cell = Cell {
                course,
                room,
                day,
                period,
            };
            reported = mixed(reported, cell_reported(path, cell));
        }
    }
    reported
}

/// Returns the answers about the pinned periods of the curricula.
fn curricula_reported<'i, P: Path<'i>>(path: &P, day: u32, period: u32, ranges: Ranges) -> u64 {
    let mut reported = 0;
    for curriculum in 0..ranges.curricula {
        reported = mixed(
            reported,
            u64::from(is_pinned_for(path, curriculum, day, period)),
        );
        reported = mixed(reported, pinned_for(path, curriculum, day));
    }
    reported
}

/// Returns the answers about the pinned periods of the curricula on a day.
fn day_reported<'i, P: Path<'i>>(path: &P, day: u32, ranges: Ranges) -> u64 {
    let mut reported = 0;
    for period in 0..ranges.periods {
        reported = mixed(reported, curricula_reported(path, day, period, ranges));
    }
    reported
}

/// Returns all answers about all cells of a small instance.
pub fn all_reported<'i, P: Path<'i>>(path: &P, ranges: Ranges, seed: u64) -> u64 {
    let mut reported = mixed(newest_reported(path), standing_reported(path, ranges, seed));
    for course in 0..ranges.courses {
        for room in 0..ranges.rooms {
            reported = mixed(reported, cells_reported(path, course, room, ranges));
        }
    }
    for day in 0..ranges.days {
        reported = mixed(reported, day_reported(path, day, ranges));
    }
    reported
}

/// Returns the answers about pinned periods and rooms of all courses and curricula, for one period and one room.
fn pinned_reported<'i, P: Path<'i>>(path: &P, cell: Cell, ranges: Ranges) -> u64 {
    let mut reported = curricula_reported(path, cell.day, cell.period, ranges);
    for course in 0..ranges.courses {
        reported = mixed(
            reported,
            u64::from(is_pinned(path, course, cell.day, cell.period)),
        );
        reported = mixed(reported, u64::from(is_pinned_in(path, course, cell.room)));
    }
    reported
}

/// Returns the answers about one cell that is drawn from a seed; those about live cells, which take long, only one time in many.
pub fn some_reported<'i, P: Path<'i>>(path: &P, ranges: Ranges, seed: u64) -> u64 {
    let mut dice = Dice { state: seed };
    let cell = Cell {
        course: dice.below(ranges.courses),
        room: dice.below(ranges.rooms),
        day: dice.below(ranges.days),
        period: dice.below(ranges.periods),
    };
    let reported = mixed(newest_reported(path), standing_reported(path, ranges, seed));
    let reported = mixed(reported, pinned_reported(path, cell, ranges));
    if dice.below(32) == 0 {
        return mixed(reported, cell_reported(path, cell));
    }
    reported
}
