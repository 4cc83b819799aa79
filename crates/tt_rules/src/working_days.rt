//! Minimum working days: 5 for each day that a course is below its minimum.

ghost use Rattle.std.specs.Prelude.{◌≡◌, ◌<◌, ◌≤◌, ◌*◌, length, All};
ghost use Rattle.tt_instance.specs.Cells.{InRange};
ghost use Rattle.tt_rules.specs.Soft.{days_of, days_cost, days_count};
ghost use Rattle.tt_table.specs.declared.groups.GroupBy.TheVariants as by;
ghost use Rattle.tt_instance.specs.declared.limit.TheConstants.{MAX_DAYS, MAX_MIN_DAYS};
ghost use Rattle.tt_rules.specs.declared.limit.TheConstants.{MAX_COUNT};

use crate::distinct;
use tt_instance::{Instance, MAX_COURSES, MISSING_DAY_COST};
use tt_table::Groups;

/// Counts the days on which the course is taught.
pub fn days_of(instance: &Instance<'_>, by_course: &Groups<'_>, course: u32) -> u64
    requires by { by_course.now.by ≡ by.Course }
    requires course { course < MAX_COURSES }
    requires in_range { All (InRange instance.now) by_course.now.entries }
    ensures count { result ≡ days_of instance.now by_course.now.entries course }
    ensures at_most { result ≤ MAX_DAYS }
{
    distinct::days(instance, by_course.of_course(course))
}

/// Returns the cost of a course.
fn cost_of(instance: &Instance<'_>, by_course: &Groups<'_>, course: u32) -> u64
    requires by { by_course.now.by ≡ by.Course }
    requires course { course < length instance.now.courses }
    requires in_range { All (InRange instance.now) by_course.now.entries }
    ensures cost { result ≡ days_cost instance.now by_course.now.entries course }
    ensures at_most { result ≤ MISSING_DAY_COST * MAX_MIN_DAYS }
{
    // Brings the instance's limits into the proof.
    prove!(instance.courses() <= MAX_COURSES);
    let days = days_of(instance, by_course, course);
    u64::from(MISSING_DAY_COST) * u64::from(instance.min_days(course)).saturating_sub(days)
}

/// Returns the cost of all courses.
#[tactic(auto, using(tt_list_laws::proofs::Numbers::sum_more))]
pub fn cost(instance: &Instance<'_>, by_course: &Groups<'_>) -> u64
    requires by { by_course.now.by ≡ by.Course }
    requires in_range { All (InRange instance.now) by_course.now.entries }
    ensures cost { result ≡ days_count instance.now by_course.now.entries }
    ensures within { result ≤ MAX_COUNT }
{
    let mut total: u64 = 0;
    for course in 0..instance.courses() {
        total += cost_of(instance, by_course, course);
    }
    total
}
