//! Days that share their tables.

ghost use Rattle.std.specs.Prelude.{◌≡◌, ℕ, ◌<◌, ◌≤◌, length, IfSome, IsTrue};
ghost use Rattle.tt_instance.specs.Courses.{unavailable};
ghost use Rattle.tt_groups_check.specs.Availability.{IsSameAvailability};

use tt_instance::Instance;

/// Checks that a course is unavailable in the same periods of both days. The contract doesn't say what `false` means.
fn is_same_for(instance: &Instance<'_>, course: u32, day: u32, other: u32) -> bool
    ensures { IsTrue result → (s : ℕ) → s < instance.now.periods → unavailable instance.now course day s ≡ unavailable instance.now course other s }
{
    for period in 0..instance.periods() {
        if instance.unavailable(course, day, period)
            != instance.unavailable(course, other, period)
        {
            return false;
        }
    }
    true
}

/// Checks that each of the courses is unavailable in the same periods of both days.
fn is_same(instance: &Instance<'_>, courses: &[u32], day: u32, other: u32) -> bool
    ensures { IsTrue result → IsSameAvailability instance.now courses.now day other }
{
    for course in courses {
        if !is_same_for(instance, *course, day, other) {
            return false;
        }
    }
    true
}

/// Returns an earlier day with the same availability, if one is found.
pub fn same_day(instance: &Instance<'_>, courses: &[u32], day: u32) -> Option<u32>
    ensures earlier { IfSome result (λ d. d < day) }
    ensures availability { IfSome result (λ d. IsSameAvailability instance.now courses.now d day) }
{
    for other in 0..day {
        if is_same(instance, courses, other, day) {
            return Some(other);
        }
    }
    None
}
