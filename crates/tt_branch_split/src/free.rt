//! Cells that are free: live, and without their own yes-fact on the path.

ghost use Rattle.std.specs.Prelude.{◌≡◌, ℕ, ◌<◌, length, true, false, IsTrue, ◌↔◌, IfSome, IsNone};
ghost use Rattle.tt_instance.specs.Cells.{InRange, cell, slot};
ghost use Rattle.tt_leaf_find.specs.Pinned.{own_pattern, IsPinnedDown};
ghost use Rattle.tt_branch_split.specs.Choice.{IsFree};

use tt_path::{Cell, Path, Pattern, Who};

/// Returns the pattern that matches only a cell.
pub fn own_pattern(cell: Cell) -> Pattern
    ensures { result ≡ own_pattern cell }
{
    Pattern {
        who: Who::Course(cell.course),
        room: Some(cell.room),
        day: Some(cell.day),
        period: Some(cell.period),
    }
}

/// Checks whether a cell is free.
pub fn is_free<'i, P: Path<'i>>(path: &P, cell: Cell) -> bool
    requires { InRange (P.problem path.now) cell }
    ensures { IsTrue result ↔ IsFree (P.problem path.now) (P.facts path.now) cell }
{
    !path.dead(cell) && !path.has(&own_pattern(cell), true)
}

fn free_on<'i, P: Path<'i>>(path: &P, course: u32, room: u32, day: u32) -> Option<Cell>
    requires course { course < length (P.problem path.now).courses }
    requires room { room < length (P.problem path.now).rooms }
    requires day { day < (P.problem path.now).days }
    ensures free { IfSome result (λ x. InRange (P.problem path.now) x × IsFree (P.problem path.now) (P.facts path.now) x) }
    ensures none { IsNone result → (s : ℕ) → s < (P.problem path.now).periods → ¬ IsFree (P.problem path.now) (P.facts path.now) (cell course room (slot day s)) }
{
    for period in 0..path.instance().periods() {
        let cell = Cell {
            course,
            room,
            day,
            period,
        };
        if is_free(path, cell) {
            return Some(cell);
        }
    }
    None
}

fn free_in<'i, P: Path<'i>>(path: &P, course: u32, room: u32) -> Option<Cell>
    requires course { course < length (P.problem path.now).courses }
    requires room { room < length (P.problem path.now).rooms }
    ensures free { IfSome result (λ x. InRange (P.problem path.now) x × IsFree (P.problem path.now) (P.facts path.now) x) }
    ensures none { IsNone result → (d : ℕ) → d < (P.problem path.now).days → (s : ℕ) → s < (P.problem path.now).periods → ¬ IsFree (P.problem path.now) (P.facts path.now) (cell course room (slot d s)) }
{
    for day in 0..path.instance().days() {
        if let Some(cell) = free_on(path, course, room, day) {
            return Some(cell);
        }
    }
    None
}

fn free_of<'i, P: Path<'i>>(path: &P, course: u32) -> Option<Cell>
    requires course { course < length (P.problem path.now).courses }
    ensures free { IfSome result (λ x. InRange (P.problem path.now) x × IsFree (P.problem path.now) (P.facts path.now) x) }
    ensures none { IsNone result → (r : ℕ) → r < length (P.problem path.now).rooms → (d : ℕ) → d < (P.problem path.now).days → (s : ℕ) → s < (P.problem path.now).periods → ¬ IsFree (P.problem path.now) (P.facts path.now) (cell course r (slot d s)) }
{
    for room in 0..path.instance().rooms() {
        if let Some(cell) = free_in(path, course, room) {
            return Some(cell);
        }
    }
    None
}

/// Returns a cell that is free on a path; if there is none, each live cell's own pattern is on the path as yes.
pub fn find_free<'i, P: Path<'i>>(path: &P) -> Option<Cell>
    ensures free { IfSome result (λ x. InRange (P.problem path.now) x × IsFree (P.problem path.now) (P.facts path.now) x) }
    ensures none { IsNone result → IsPinnedDown (P.problem path.now) (P.facts path.now) }
{
    for course in 0..path.instance().courses() {
        if let Some(cell) = free_of(path, course) {
            return Some(cell);
        }
    }
    None
}
