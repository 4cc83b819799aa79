//! Room stability: one for each room of a course except the first.

ghost use Rattle.std.specs.Prelude.{◌≡◌, ◌<◌, ◌≤◌, ◌&&◌, count_by, All};
ghost use Rattle.std.specs.List.{list_any};
ghost use Rattle.tt_instance.specs.Cells.{InRange, all_rooms, is_of, is_in};
ghost use Rattle.tt_rules.specs.Soft.{stability_cost, stability_count};
ghost use Rattle.tt_table.specs.declared.groups.GroupBy.TheVariants as by;
ghost use Rattle.tt_instance.specs.declared.limit.TheConstants.{MAX_ROOMS};
ghost use Rattle.tt_table.specs.declared.groups.TheConstants.{GROUPS};
ghost use Rattle.tt_rules.specs.declared.limit.TheConstants.{MAX_COUNT};

use crate::distinct;
use tt_instance::Instance;
use tt_table::Groups;

/// Counts the rooms in which the course is taught.
fn rooms_of(instance: &Instance<'_>, by_course: &Groups<'_>, course: u32) -> u64
    requires by { by_course.now.by ≡ by.Course }
    requires course { course < GROUPS }
    requires in_range { All (InRange instance.now) by_course.now.entries }
    ensures count { result
        ≡ count_by (λ r. list_any (λ e. is_of course e && is_in r e) by_course.now.entries)
        (all_rooms instance.now) }
    ensures at_most { result ≤ MAX_ROOMS }
{
    distinct::rooms(instance, by_course.of_course(course))
}

/// Counts the rooms of a course besides its first.
pub fn other_rooms(instance: &Instance<'_>, by_course: &Groups<'_>, course: u32) -> u64
    requires by { by_course.now.by ≡ by.Course }
    requires course { course < GROUPS }
    requires in_range { All (InRange instance.now) by_course.now.entries }
    ensures rooms { result ≡ stability_cost instance.now by_course.now.entries course }
    ensures at_most { result ≤ MAX_ROOMS }
{
    rooms_of(instance, by_course, course).saturating_sub(1)
}

/// Returns the cost of all courses.
#[tactic(auto, using(tt_list_laws::proofs::Numbers::sum_more))]
pub fn cost(instance: &Instance<'_>, by_course: &Groups<'_>) -> u64
    requires by { by_course.now.by ≡ by.Course }
    requires in_range { All (InRange instance.now) by_course.now.entries }
    ensures cost { result ≡ stability_count instance.now by_course.now.entries }
    ensures within { result ≤ MAX_COUNT }
{
    let mut total: u64 = 0;
    for course in 0..instance.courses() {
        total += other_rooms(instance, by_course, course);
    }
    total
}
