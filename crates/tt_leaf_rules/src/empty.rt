//! Patterns whose cells are all dead.

ghost use Rattle.std.specs.Prelude.{◌≡◌, ◌<◌, length};
ghost use Rattle.std.specs.List.{list_all};
ghost use Rattle.tt_instance.specs.Cells.{slot};
ghost use Rattle.tt_instance.specs.Courses.{members};
ghost use Rattle.tt_leaf_rules.specs.Leaves.{all_dead};
ghost use Rattle.tt_leaf_rules.specs.Inner.Nested.{are_rooms_dead, is_period_dead, is_course_dead, is_gone_or_dead};

use crate::slots::{slot_at, slot_count};
use tt_instance::Cell;
use tt_path::{Path, Pattern, Who, is_none_or_equal};

/// Returns whether the course's cells in the period are dead, in the given room if one is given.
fn are_rooms_dead<'i, P: Path<'i>>(
    path: &P,
    room: Option<u32>,
    course: u32,
    day: u32,
    period: u32,
) -> bool
    requires course { course < length (P.problem path.now).courses }
    requires day { day < (P.problem path.now).days }
    requires period { period < (P.problem path.now).periods }
    ensures { result ≡ are_rooms_dead (P.problem path.now) (P.facts path.now) room course (slot day period) }
{
    match room {
        None => !path.live_period(course, day, period),
        Some(room) => {
            room >= path.instance().rooms()
                || path.dead(Cell {
                    course,
                    room,
                    day,
                    period,
                })
        }
    }
}

fn is_period_dead<'i, P: Path<'i>>(
    path: &P,
    pattern: &Pattern,
    course: u32,
    day: u32,
    period: u32,
) -> bool
    requires course { course < length (P.problem path.now).courses }
    requires day { day < (P.problem path.now).days }
    requires period { period < (P.problem path.now).periods }
    ensures { result ≡ is_period_dead (P.problem path.now) (P.facts path.now) pattern.now course (slot day period) }
{
    !is_none_or_equal(pattern.day, day)
        || !is_none_or_equal(pattern.period, period)
        || are_rooms_dead(path, pattern.room, course, day, period)
}

fn is_course_dead<'i, P: Path<'i>>(path: &P, pattern: &Pattern, course: u32) -> bool
    requires { course < length (P.problem path.now).courses }
    ensures { result ≡ is_course_dead (P.problem path.now) (P.facts path.now) pattern.now course }
{
    let instance = path.instance();
    for place in 0..slot_count(instance) {
        let slot = slot_at(instance, place);
        if !is_period_dead(path, pattern, course, slot.day, slot.period) {
            return false;
        }
    }
    true
}

fn is_gone_or_dead<'i, P: Path<'i>>(path: &P, pattern: &Pattern, course: u32) -> bool
    ensures { result ≡ is_gone_or_dead (P.problem path.now) (P.facts path.now) pattern.now course }
{
    course >= path.instance().courses() || is_course_dead(path, pattern, course)
}

fn are_courses_dead<'i, P: Path<'i>>(path: &P, pattern: &Pattern, courses: &[u32]) -> bool
    ensures { result ≡ list_all (is_gone_or_dead (P.problem path.now) (P.facts path.now) pattern.now) courses.now }
{
    for course in courses {
        if !is_gone_or_dead(path, pattern, *course) {
            return false;
        }
    }
    true
}

fn are_members_dead<'i, P: Path<'i>>(path: &P, pattern: &Pattern, curriculum: u32) -> bool
    requires { curriculum < length (P.problem path.now).curricula }
    ensures { result ≡ list_all (is_gone_or_dead (P.problem path.now) (P.facts path.now) pattern.now)
        (members (P.problem path.now) curriculum) }
{
    are_courses_dead(path, pattern, path.instance().members(curriculum))
}

/// Returns whether each cell that the pattern matches is dead. It visits only the courses that the pattern means.
pub fn are_all_dead<'i, P: Path<'i>>(path: &P, pattern: &Pattern) -> bool
    ensures { result ≡ all_dead (P.problem path.now) (P.facts path.now) pattern.now }
{
    match pattern.who {
        Who::Course(course) => is_gone_or_dead(path, pattern, course),
        Who::Curriculum(curriculum) => {
            curriculum >= path.instance().curricula() || are_members_dead(path, pattern, curriculum)
        }
    }
}
