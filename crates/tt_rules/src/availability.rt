//! Availability: no entry is in a period that is unavailable for its course.

ghost use Rattle.std.specs.Prelude.{◌≡◌, ◌≤◌, length};
ghost use Rattle.tt_rules.specs.Hard.{availability_count};

use tt_instance::Instance;
use tt_table::Entry;

/// Counts the entries in a period that is unavailable for their course.
pub fn count(instance: &Instance<'_>, entries: &[Entry]) -> u64
    ensures count { result ≡ availability_count instance.now entries.now }
    ensures at_most { result ≤ length entries.now }
{
    entries
        .iter()
        .filter(|e| instance.unavailable(e.course, e.day, e.period))
        .count() as u64
}
