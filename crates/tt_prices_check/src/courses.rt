//! The courses that a group with prices concerns, and the sizes of its digits.

ghost use Rattle.std.specs.Prelude.{◌≡◌, ◌+◌, ◌++◌, ◌<◌, length, map, filter, not, All, IfOk, OnOk};
ghost use Rattle.tt_groups.specs.Plans.{slack};
ghost use Rattle.std.specs.List.{list_any};
ghost use Rattle.tt_list_laws.specs.Words.{has_number};
ghost use Rattle.tt_instance.specs.Courses.{in_curriculum, lectures};
ghost use Rattle.tt_groups.specs.Days.{courses_of, counted_of};
ghost use Rattle.tt_groups.specs.Prices.{concerns};
ghost use Rattle.tt_groups.specs.Rows.{group_of};
ghost use Rattle.tt_prices_check.specs.Groups.{IsGroupOf};
ghost use Rattle.tt_prices_check.specs.Week.{week_sizes};

use std::alloc::{AllocError, Global};
use tt_groups::PricedGroup;
use tt_instance::Instance;

/// Checks whether a course is one of the further ones.
fn is_further(group: &PricedGroup, course: u32) -> bool
    ensures { result ≡ has_number (group_of group.now).further course }
{
    group.further.iter().any(|own| *own == course)
}

/// Checks whether a course is a member of one of the group's curricula.
fn is_member(instance: &Instance<'_>, group: &PricedGroup, course: u32) -> bool
    ensures { result ≡ list_any (λ q. in_curriculum instance.now q course) (group_of group.now).curricula }
{
    group
        .curricula
        .iter()
        .any(|curriculum| instance.in_curriculum(*curriculum, course))
}

/// Checks whether a group concerns a course.
pub fn is_concerned(instance: &Instance<'_>, group: &PricedGroup, course: u32) -> bool
    ensures { result ≡ concerns instance.now (group_of group.now) course }
{
    group.has_days_of(course) || is_further(group, course) || is_member(instance, group, course)
}

/// Returns the courses that a group concerns, in order.
pub fn courses_of(
    alloc: Global,
    instance: &Instance<'_>,
    group: &PricedGroup,
) -> Result<Vec<u32>, AllocError>
    ensures value { IfOk result (λ v. v.items ≡ courses_of instance.now (group_of group.now)) }
    ensures in_range { IfOk result (λ v. All (λ c. c < length instance.now.courses) v.items) }
{
    let mut courses = Vec::new(alloc);
    for course in 0..instance.courses() {
        if is_concerned(instance, group, course) {
            courses.push(course)?;
        }
    }
    Ok(courses)
}

/// Returns the sizes of the digits of the lectures of the counted courses.
fn lecture_sizes(
    alloc: Global,
    instance: &Instance<'_>,
    group: &PricedGroup,
    courses: &[u32],
) -> Result<Vec<u32>, AllocError>
    requires in_range { All (λ c. c < length instance.now.courses) courses.now }
    ensures { IfOk result (λ v. v.items ≡ map (λ c. lectures instance.now c + 1) (filter (λ c. not (has_number (group_of group.now).uncounted c)) courses.now)) }
{
    let mut sizes = Vec::new(alloc);
    for course in courses {
        if !group.is_uncounted(*course) {
            sizes.push(instance.lectures(*course) + 1)?;
        }
    }
    Ok(sizes)
}

/// Adds the sizes of the digits of the further lectures of the courses whose working days count.
fn add_slacks(
    instance: &Instance<'_>,
    group: &PricedGroup,
    sizes: &mut Vec<u32>,
) -> Result<(), AllocError>
    requires { All (λ c. c < length instance.now.courses) (group_of group.now).courses }
    ensures { OnOk result (sizes.new.items ≡ sizes.old.items ++ map (λ c. slack instance.now c + 1) (group_of group.now).courses) }
{
    for course in &group.courses {
        let lectures = instance.lectures(*course);
        sizes.push(lectures.saturating_sub(instance.min_days(*course)) + 1)?;
    }
    Ok(())
}

/// The sizes of the digits of a group's week, of which the first `counted` are those of the lectures of its counted courses.
#[derive(Debug, Drop)]
pub struct WeekSizes {
    pub sizes: Vec<u32>,
    pub counted: usize,
}

/// Returns the sizes of the digits of a group's week. The courses are those that the group concerns.
pub fn sizes_of(
    alloc: Global,
    instance: &Instance<'_>,
    group: &PricedGroup,
    courses: &[u32],
) -> Result<WeekSizes, AllocError>
    requires in_range { All (λ c. c < length instance.now.courses) courses.now }
    requires group { IsGroupOf instance.now (group_of group.now) }
    requires courses { courses.now ≡ courses_of instance.now (group_of group.now) }
    ensures sizes { IfOk result (λ v. v.sizes.items ≡ week_sizes instance.now (group_of group.now)) }
    ensures counted { IfOk result (λ v. v.counted ≡ length (counted_of instance.now (group_of group.now))) }
{
    let mut sizes = lecture_sizes(alloc, instance, group, courses)?;
    let counted = sizes.len();
    add_slacks(instance, group, &mut sizes)?;
    Ok(WeekSizes { sizes, counted })
}
