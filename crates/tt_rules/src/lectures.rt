//! Lectures: all lectures of a course are placed, in distinct periods.

ghost use Rattle.std.specs.Prelude.{◌≡◌, ◌<◌, ◌≤◌, ◌*◌, length, All};
ghost use Rattle.tt_instance.specs.Cells.{InRange};
ghost use Rattle.tt_rules.specs.Hard.{entries_of, periods_of, lectures_off, lectures_count};
ghost use Rattle.tt_instance.specs.declared.limit.TheConstants.{MAX_SLOTS};
ghost use Rattle.tt_table.specs.declared.groups.GroupBy.TheVariants as by;
ghost use Rattle.tt_table.specs.declared.table.TheConstants.{MAX_ENTRIES};
ghost use Rattle.tt_rules.specs.declared.limit.TheConstants.{MAX_COUNT};

use crate::distinct;
use tt_instance::{Instance, MAX_COURSES};
use tt_table::Groups;

/// Counts the entries of a course.
pub fn entries_of(by_course: &Groups<'_>, course: u32) -> u64
    requires by { by_course.now.by ≡ by.Course }
    requires course { course < MAX_COURSES }
    requires at_most { length by_course.now.entries ≤ MAX_ENTRIES }
    ensures count { result ≡ entries_of by_course.now.entries course }
    ensures at_most { result ≤ length by_course.now.entries }
{
    by_course.of_course(course).len()
}

/// Counts the periods in which the course is taught.
pub fn periods_of(instance: &Instance<'_>, by_course: &Groups<'_>, course: u32) -> u64
    requires by { by_course.now.by ≡ by.Course }
    requires course { course < MAX_COURSES }
    requires in_range { All (InRange instance.now) by_course.now.entries }
    ensures count { result ≡ periods_of instance.now by_course.now.entries course }
    ensures at_most { result ≤ MAX_SLOTS }
{
    distinct::periods(instance, by_course.of_course(course))
}

/// Returns how far a course is from its number of lectures, plus its entries that share a period with an earlier one.
pub fn lectures_off(instance: &Instance<'_>, by_course: &Groups<'_>, course: u32) -> u64
    requires by { by_course.now.by ≡ by.Course }
    requires course { course < length instance.now.courses }
    requires in_range { All (InRange instance.now) by_course.now.entries }
    requires at_most { length by_course.now.entries ≤ MAX_ENTRIES }
    ensures value { result ≡ lectures_off instance.now by_course.now.entries course }
    ensures within { result ≤ 4 * MAX_ENTRIES }
{
    // Brings the instance's limits into the proof.
    prove!(instance.courses() <= MAX_COURSES);
    let wanted = u64::from(instance.lectures(course));
    let placed = entries_of(by_course, course);
    let periods = periods_of(instance, by_course, course);
    (wanted.max(placed) - wanted.min(placed)) + placed.saturating_sub(periods)
}

/// Returns how far the courses are from their lectures in total.
#[tactic(auto, using(tt_list_laws::proofs::Numbers::sum_more))]
pub fn count(instance: &Instance<'_>, by_course: &Groups<'_>) -> u64
    requires by { by_course.now.by ≡ by.Course }
    requires in_range { All (InRange instance.now) by_course.now.entries }
    requires at_most { length by_course.now.entries ≤ MAX_ENTRIES }
    ensures count { result ≡ lectures_count instance.now by_course.now.entries }
    ensures within { result ≤ MAX_COUNT }
{
    let mut total: u64 = 0;
    for course in 0..instance.courses() {
        total += lectures_off(instance, by_course, course);
    }
    total
}
