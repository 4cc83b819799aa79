//! Conflicts: no two entries of one period have courses that conflict.

ghost use Rattle.std.specs.Prelude.{◌≡◌, ◌≤◌, ◌+◌, length, count_by, drop, All, Some, slice_get};
ghost use Rattle.tt_instance.specs.Cells.{InRange};
ghost use Rattle.tt_instance.specs.Courses.{conflict};
ghost use Rattle.tt_rules.specs.Hard.{collide, conflicts_count};
ghost use Rattle.tt_table.specs.declared.groups.GroupBy.TheVariants as by;
ghost use Rattle.tt_table.specs.declared.table.TheConstants.{MAX_ENTRIES};
ghost use Rattle.tt_rules.specs.declared.limit.TheConstants.{MAX_COUNT};

use tt_instance::Instance;
use tt_table::{Entry, Group, Groups};

/// Counts the entries of a group whose courses conflict with an entry's.
fn excluded(instance: &Instance<'_>, entry: &Entry, group: Group<'_>) -> u64
    requires at_most { length group ≤ MAX_ENTRIES }
    ensures count { result
        ≡ count_by (λ other. conflict instance.now entry.now.course other.course) group.entry }
    ensures at_most { result ≤ length group.entry }
{
    group
        .filter(|other| instance.conflict(entry.course, other.course))
        .count() as u64
}

/// Counts the later entries that collide with an entry.
fn against(instance: &Instance<'_>, by_period: &Groups<'_>, entry: &Entry, index: u32) -> u64
    requires by { by_period.now.by ≡ by.Period instance.now.periods }
    requires in_range { All (InRange instance.now) by_period.now.entries }
    requires at_most { length by_period.now.entries ≤ MAX_ENTRIES }
    requires there { slice_get by_period.now.entries index ≡ Some entry.now }
    ensures count { result ≡ count_by (collide instance.now entry.now) (drop (index + 1) by_period.now.entries) }
    ensures at_most { result ≤ length by_period.now.entries }
{
    excluded(instance, entry, by_period.after(index))
}

/// Counts the pairs of entries that collide.
pub fn count(instance: &Instance<'_>, entries: &[Entry], by_period: &Groups<'_>) -> u64
    requires by { by_period.now.by ≡ by.Period instance.now.periods }
    requires entries { by_period.now.entries ≡ entries.now }
    requires in_range { All (InRange instance.now) entries.now }
    requires at_most { length entries.now ≤ MAX_ENTRIES }
    ensures count { result ≡ conflicts_count instance.now entries.now }
    ensures within { result ≤ MAX_COUNT }
{
    let mut total: u64 = 0;
    for (index, entry) in entries.iter().enumerate() {
        total += against(instance, by_period, entry, index as u32);
    }
    total
}
