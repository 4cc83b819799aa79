//! Room capacity: one for each student without a seat, in each entry.

ghost use Rattle.std.specs.Prelude.{◌≡◌, ◌≤◌, length, All};
ghost use Rattle.tt_instance.specs.Cells.{InRange};
ghost use Rattle.tt_instance.specs.Courses.{excess};
ghost use Rattle.tt_table.specs.declared.table.TheConstants.{MAX_ENTRIES};
ghost use Rattle.tt_rules.specs.Soft.{capacity_count};
ghost use Rattle.tt_rules.specs.declared.limit.TheConstants.{MAX_COUNT};
ghost use Rattle.tt_instance.specs.declared.limit.TheConstants.{MAX_SEATS};

use tt_instance::Instance;
use tt_table::Entry;

/// Counts the students of an entry's course for whom its room has no seat.
pub fn without_seat(instance: &Instance<'_>, entry: &Entry) -> u64
    requires { InRange instance.now entry.now }
    ensures value { result ≡ excess instance.now entry.now.course entry.now.room }
    ensures at_most { result ≤ MAX_SEATS }
{
    let seats = instance.capacity(entry.room);
    u64::from(instance.students(entry.course).saturating_sub(seats))
}

/// Counts the students without a seat, in all entries.
#[tactic(auto, using(std::proofs::lemmas::List::Sums::sum_by_more))]
pub fn students_without_seat(instance: &Instance<'_>, entries: &[Entry]) -> u64
    requires in_range { All (InRange instance.now) entries.now }
    requires at_most { length entries.now ≤ MAX_ENTRIES }
    ensures cost { result ≡ capacity_count instance.now entries.now }
    ensures within { result ≤ MAX_COUNT }
{
    let mut total: u64 = 0;
    for entry in entries {
        total += without_seat(instance, entry);
    }
    total
}
