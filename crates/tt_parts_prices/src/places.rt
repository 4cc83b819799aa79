//! The periods of a week.

use tt_instance::Instance;

/// Returns the number of periods of a week.
pub fn periods_of_week(instance: &Instance<'_>) -> u32 {
    instance.days() * instance.periods()
}

/// Returns the number of periods of a week in which a course is available.
fn open_periods(instance: &Instance<'_>, course: u32) -> u32 {
    let mut count: u32 = 0;
    for day in 0..instance.days() {
        for period in 0..instance.periods() {
            if !instance.unavailable(course, day, period) {
                count = count.saturating_add(1);
            }
        }
    }
    count
}

/// Checks whether there are rooms, and each course is available in as many periods as it has lectures. If not, no file is valid.
pub fn has_places(instance: &Instance<'_>) -> bool {
    if instance.rooms() == 0 {
        return false;
    }
    for course in 0..instance.courses() {
        if open_periods(instance, course) < instance.lectures(course) {
            return false;
        }
    }
    true
}
