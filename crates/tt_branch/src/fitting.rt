//! Whether a timetable fits a root.

ghost use Rattle.std.specs.Prelude.{◌≡◌, ◌↔◌, IsTrue};
ghost use Rattle.std.specs.List.{list_any};
ghost use Rattle.tt_path.specs.Facts.{matches, Holds, Fits};

use tt_instance::Instance;
use tt_path::{Fact, Pattern};
use tt_table::Timetable;

/// Returns whether a pattern matches an entry of a timetable.
fn is_matched(instance: &Instance<'_>, table: &Timetable, pattern: Pattern) -> bool
    ensures { result ≡ list_any (matches instance.now pattern) table.now }
{
    table
        .entries()
        .iter()
        .any(|entry| pattern.is_match(instance, *entry))
}

/// Returns whether a fact holds for a timetable.
fn is_true(instance: &Instance<'_>, table: &Timetable, fact: Fact) -> bool
    ensures { IsTrue result ↔ Holds instance.now table.now fact }
{
    is_matched(instance, table, fact.pattern) == fact.holds
}

/// Returns whether each fact of a root holds for a timetable.
pub fn is_fitting(instance: &Instance<'_>, table: &Timetable, root: &[Fact]) -> bool
    ensures { IsTrue result ↔ Fits instance.now table.now root.now }
{
    root.iter().all(|fact| is_true(instance, table, *fact))
}
