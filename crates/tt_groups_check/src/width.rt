//! The width of a claim, compared with the limits.

ghost use Rattle.std.specs.Prelude.{◌≡◌, ◌<◌, ◌≤◌, ◌*◌, length, count_by, All};
ghost use Rattle.std.specs.List.{list_any};
ghost use Rattle.tt_list_laws.specs.Words.{has_number};
ghost use Rattle.tt_groups.specs.Group.{concerns};
ghost use Rattle.tt_groups.specs.Plans.{base_cost};
ghost use Rattle.tt_groups_check.specs.Limits.{IsGroupOf, has_long_course, is_too_wide};
ghost use Rattle.tt_instance.specs.Cells.{all_courses};
ghost use Rattle.tt_instance.specs.Courses.{in_curriculum};
ghost use Rattle.tt_instance.specs.declared.limit.TheConstants.{MAX_MIN_DAYS};

use tt_groups::Group;
use tt_instance::{Instance, MISSING_DAY_COST};

/// The maximum number of curricula of a group.
pub const GROUP_CURRICULA: usize = 64;

/// The maximum number of courses that a group concerns.
pub const GROUP_COURSES: usize = 16;

/// The maximum number of lectures of a course that a group concerns.
pub const GROUP_LECTURES: u32 = 255;

/// The maximum distance of a group's value above its base cost.
pub const GROUP_VALUE: u64 = 127;

/// Checks whether a course is one of the group's own.
fn is_own(group: &Group, course: u32) -> bool
    ensures { result ≡ has_number group.now.courses course }
{
    group.courses().iter().any(|own| *own == course)
}

/// Checks whether a course is a member of one of the group's curricula.
fn is_member(instance: &Instance<'_>, group: &Group, course: u32) -> bool
    ensures { result ≡ list_any (λ q. in_curriculum instance.now q course) group.now.curricula }
{
    group
        .curricula()
        .iter()
        .any(|curriculum| instance.in_curriculum(*curriculum, course))
}

/// Checks whether a group concerns a course.
pub fn is_concerned(instance: &Instance<'_>, group: &Group, course: u32) -> bool
    ensures { result ≡ concerns instance.now group.now course }
{
    is_own(group, course) || is_member(instance, group, course)
}

/// Returns the number of courses that a group concerns.
fn courses_count(instance: &Instance<'_>, group: &Group) -> usize
    ensures { result ≡ count_by (concerns instance.now group.now) (all_courses instance.now) }
{
    let mut count = 0;
    for course in 0..instance.courses() {
        if is_concerned(instance, group, course) {
            count += 1;
        }
    }
    count
}

/// Checks whether a group concerns a course with too many lectures.
fn has_long_course(instance: &Instance<'_>, group: &Group) -> bool
    ensures { result ≡ has_long_course instance.now group.now }
{
    for course in 0..instance.courses() {
        if is_concerned(instance, group, course) && GROUP_LECTURES < instance.lectures(course) {
            return true;
        }
    }
    false
}

/// Returns the base cost: the group costs at least this in each relaxed timetable, since a course has no more days than lectures.
pub fn base_cost(instance: &Instance<'_>, group: &Group) -> u64
    requires at_most { length group.now.courses ≤ GROUP_COURSES }
    requires in_range { IsGroupOf instance.now group.now }
    ensures value { result ≡ base_cost instance.now group.now }
    ensures small { result ≤ MISSING_DAY_COST * MAX_MIN_DAYS * GROUP_COURSES }
{
    let mut base = 0;
    for course in group.courses() {
        let days = u64::from(instance.min_days(*course));
        base += u64::from(MISSING_DAY_COST)
            * days.saturating_sub(u64::from(instance.lectures(*course)));
    }
    base
}

/// Checks whether the tables are too narrow for a group and a value.
pub fn is_too_wide(instance: &Instance<'_>, group: &Group, value: u64) -> bool
    requires { IsGroupOf instance.now group.now }
    ensures { result ≡ is_too_wide instance.now group.now value }
{
    GROUP_CURRICULA < group.curricula().len()
        || GROUP_COURSES < group.courses().len()
        || GROUP_COURSES < courses_count(instance, group)
        || has_long_course(instance, group)
        || base_cost(instance, group) + GROUP_VALUE < value
}
