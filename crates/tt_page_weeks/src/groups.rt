//! Tests and counts of some entries.

ghost use Rattle.std.specs.Prelude.{◌≡◌, ◌≤◌, length, count_by};
ghost use Rattle.std.specs.List.{list_any};
ghost use Rattle.tt_instance.specs.Cells.{is_of, is_in};
ghost use Rattle.tt_instance.specs.Courses.{conflict};
ghost use Rattle.tt_table.specs.declared.table.TheConstants.{MAX_ENTRIES};

use tt_instance::Instance;
use tt_table::Group;

/// Returns whether some entry's course conflicts with a course.
pub fn has_conflict_with(instance: &Instance<'_>, mut group: Group<'_>, course: u32) -> bool
    ensures { result ≡ list_any (λ x. conflict instance.now x.course course) group.entry }
{
    group.any(|entry| instance.conflict(entry.course, course))
}

/// Counts the entries in a room.
pub fn count_in(group: Group<'_>, room: u32) -> usize
    requires { length group ≤ MAX_ENTRIES }
    ensures { result ≡ count_by (is_in room) group.entry }
{
    group.filter(|entry| entry.room == room).count()
}

/// Counts the entries of a course.
pub fn count_of(group: Group<'_>, course: u32) -> usize
    requires { length group ≤ MAX_ENTRIES }
    ensures { result ≡ count_by (is_of course) group.entry }
{
    group.filter(|entry| entry.course == course).count()
}
