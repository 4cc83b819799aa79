//! The choice of a pattern to split a node by. Nothing is proved about the choice except that it aims at a free cell.

ghost use Rattle.std.specs.Prelude.{◌≡◌, ◌<◌, length, IfOk, IfSome, IsNone};
ghost use Rattle.tt_instance.specs.Cells.{InRange};
ghost use Rattle.tt_leaf_find.specs.Pinned.{IsPinnedDown};
ghost use Rattle.tt_branch_split.specs.Choice.{IsFree, IsNewSplit};

use crate::free::{find_free, is_free, own_pattern};
use crate::leeway::Freedom;
use crate::prospects::Prospects;
use crate::strong::best_candidate;
use std::alloc::{AllocError, Global};
use tt_instance::Instance;
use tt_path::{Cell, Path, Pattern, Who};

/// The maximum number of ways to choose the periods of all courses, as a logarithm in sixteenths, for fixing one curriculum
/// after another: then a search below is likely to end.
const FEW_WAYS: u64 = 1_850;

/// The maximum number of pairs of courses, counted for each period, that are visited for one choice.
const MOST_PAIRS: u64 = 4_194_304;

// -- the choice of a course

/// Returns the curriculum whose courses are the least free on average.
fn choose_curriculum<'i, P: Path<'i>>(path: &P, freedom: &Freedom) -> Option<u32>
    ensures { IfSome result (λ q. q < length (P.problem path.now).curricula) }
{
    let instance = path.instance();
    let mut found = None;
    let mut least = u64::MAX;
    for curriculum in 0..instance.curricula() {
        if let Some(mean) = freedom.mean(instance.members(curriculum))
            && mean < least
        {
            found = Some(curriculum);
            least = mean;
        }
    }
    found
}

/// Returns the course whose periods are chosen next: a forced one, else the least free one of the least free
/// curriculum, so that one curriculum is fixed after another.
fn choose_course<'i, P: Path<'i>>(path: &P, freedom: &Freedom) -> Option<u32> {
    let least = freedom.least()?;
    if freedom.is_forced(least) {
        return Some(least);
    }
    match choose_curriculum(path, freedom) {
        Some(curriculum) => freedom.least_of(path.instance().members(curriculum)),
        None => Some(least),
    }
}

// -- the choice of a period

/// A period and the estimated cost of a lecture in it.
#[derive(Clone, Copy)]
struct Estimate {
    day: u32,
    period: u32,
    cost: u64,
}

/// Returns the period of a day in which a lecture of the course lacks the fewest seats, if it is cheaper than the one found.
fn cheapest_on<'i, P: Path<'i>>(
    path: &P,
    course: u32,
    day: u32,
    found: Option<Estimate>,
) -> Option<Estimate>
    requires course { course < length (P.problem path.now).courses }
    requires day { day < (P.problem path.now).days }
    requires found { IfSome found (λ e. e.day < (P.problem path.now).days) }
    requires found_period { IfSome found (λ e. e.period < (P.problem path.now).periods) }
    ensures day { IfSome result (λ e. e.day < (P.problem path.now).days) }
    ensures period { IfSome result (λ e. e.period < (P.problem path.now).periods) }
{
    let mut found = found;
    for period in 0..path.instance().periods() {
        if path.pinned(Who::Course(course), day, period) {
            continue;
        }
        if let Some(cost) = path.least_excess(course, day, period)
            && found.is_none_or(|estimate| cost < estimate.cost)
        {
            found = Some(Estimate { day, period, cost });
        }
    }
    found
}

fn cheapest_period<'i, P: Path<'i>>(path: &P, course: u32) -> Option<Estimate>
    requires { course < length (P.problem path.now).courses }
    ensures day { IfSome result (λ e. e.day < (P.problem path.now).days) }
    ensures period { IfSome result (λ e. e.period < (P.problem path.now).periods) }
{
    let mut found = None;
    for day in 0..path.instance().days() {
        found = cheapest_on(path, course, day, found);
    }
    found
}

/// Returns the pattern of a course in a period, if it is new and one of its cells is free.
fn aim_at<'i, P: Path<'i>>(path: &P, course: u32, day: u32, period: u32) -> Option<Pattern>
    requires course { course < length (P.problem path.now).courses }
    requires day { day < (P.problem path.now).days }
    requires period { period < (P.problem path.now).periods }
    ensures { IfSome result (IsNewSplit (P.problem path.now) (P.facts path.now)) }
{
    let pattern = Pattern {
        who: Who::Course(course),
        room: None,
        day: Some(day),
        period: Some(period),
    };
    if path.has(&pattern, true) {
        return None;
    }
    for room in 0..path.instance().rooms() {
        let cell = Cell {
            course,
            room,
            day,
            period,
        };
        if is_free(path, cell) {
            return Some(pattern);
        }
    }
    None
}

/// Returns the pattern of a course in a period, if the numbers are the instance's, the pattern is new and one of its cells is free.
fn aim_within<'i, P: Path<'i>>(path: &P, course: u32, day: u32, period: u32) -> Option<Pattern>
    ensures { IfSome result (IsNewSplit (P.problem path.now) (P.facts path.now)) }
{
    let instance = path.instance();
    if course >= instance.courses() || day >= instance.days() || period >= instance.periods() {
        return None;
    }
    aim_at(path, course, day, period)
}

fn split_by_period<'i, P: Path<'i>>(path: &P, freedom: &Freedom) -> Option<Pattern>
    ensures { IfSome result (IsNewSplit (P.problem path.now) (P.facts path.now)) }
{
    let course = choose_course(path, freedom)?;
    if course >= path.instance().courses() {
        return None;
    }
    let estimate = cheapest_period(path, course)?;
    aim_at(path, course, estimate.day, estimate.period)
}

// -- the choice by the gains of both children

/// Checks that the number of courses and periods is small enough to try each course in each period.
fn is_small(instance: &Instance<'_>) -> bool {
    let courses = u64::from(instance.courses());
    let periods = u64::from(instance.days()).saturating_mul(u64::from(instance.periods()));
    courses.saturating_mul(courses).saturating_mul(periods) <= MOST_PAIRS
}

/// Returns the course and the period whose children gain most, if a search is not likely to end.
fn split_strongly<'i, P: Path<'i>>(
    alloc: Global,
    path: &P,
    prospects: &Prospects,
    freedom: &Freedom,
) -> Result<Option<Pattern>, AllocError>
    ensures { IfOk result (λ found. IfSome found (IsNewSplit (P.problem path.now) (P.facts path.now))) }
{
    let instance = path.instance();
    if freedom.total() <= FEW_WAYS || !is_small(instance) {
        return Ok(None);
    }
    match best_candidate(alloc, instance, prospects)? {
        Some(found) => Ok(aim_within(path, found.course, found.day, found.period)),
        None => Ok(None),
    }
}

// -- the choice of a room

/// Returns the estimated cost of a lecture in a cell: the seats that it lacks, and another room.
fn room_cost<'i, P: Path<'i>>(path: &P, cell: Cell) -> u32
    requires { InRange (P.problem path.now) cell }
{
    let instance = path.instance();
    let excess = instance
        .students(cell.course)
        .saturating_sub(instance.capacity(cell.room));
    excess.saturating_add(u32::from(!path.pinned_room(cell.course, cell.room)))
}

/// Returns the free cell with the lowest estimated cost, in the period of a given free cell.
fn cheapest_room<'i, P: Path<'i>>(path: &P, cell: Cell) -> Cell
    requires range { InRange (P.problem path.now) cell }
    requires free { IsFree (P.problem path.now) (P.facts path.now) cell }
    ensures range { InRange (P.problem path.now) result }
    ensures free { IsFree (P.problem path.now) (P.facts path.now) result }
{
    let mut found = cell;
    for room in 0..path.instance().rooms() {
        let other = Cell { room, ..cell };
        if is_free(path, other) && room_cost(path, other) < room_cost(path, found) {
            found = other;
        }
    }
    found
}

/// Returns the own pattern of a free cell.
fn split_by_cell<'i, P: Path<'i>>(path: &P) -> Option<Pattern>
    ensures split { IfSome result (IsNewSplit (P.problem path.now) (P.facts path.now)) }
    ensures none { IsNone result → IsPinnedDown (P.problem path.now) (P.facts path.now) }
{
    match find_free(path) {
        Some(cell) => Some(own_pattern(cheapest_room(path, cell))),
        None => None,
    }
}

/// Returns a pattern that splits a node which no leaf closes: of a course and a period, or of one cell once no
/// course has an open period.
pub fn choose_split<'i, P: Path<'i>>(alloc: Global, path: &P) -> Result<Option<Pattern>, AllocError>
    ensures split { IfOk result (λ found. IfSome found (IsNewSplit (P.problem path.now) (P.facts path.now))) }
    ensures none { IfOk result (λ found. IsNone found → IsPinnedDown (P.problem path.now) (P.facts path.now)) }
{
    let prospects = Prospects::new(alloc, path)?;
    let freedom = Freedom::new(alloc, &prospects)?;
    if let Some(pattern) = split_strongly(alloc, path, &prospects, &freedom)? {
        return Ok(Some(pattern));
    }
    if let Some(pattern) = split_by_period(path, &freedom) {
        return Ok(Some(pattern));
    }
    Ok(split_by_cell(path))
}
