//! The marks of unavailable periods.

ghost use Rattle.std.specs.Prelude.{◌≡◌, ◌+◌, ◌*◌, [], ◌∷◌, ◌++◌, All, length, OnOk};
ghost use Rattle.tt_instance.specs.Inner.Indexed.{IsBarred, IsInWeek, is_marked_at};
ghost use Rattle.tt_instance.specs.Seen.{unavailability_seen, unavailabilities_seen};

use crate::limit::MAX_PERIODS;
use crate::marks::{Marks, has_at};
use crate::rows::{UnavailabilityList, UnavailabilityRow};
use std::alloc::AllocError;

/// The places of a day in the marks of a course.
const DAY: u32 = MAX_PERIODS;

/// Returns the place of a period in the marks of a course.
pub fn mark_place(day: u32, period: u32) -> usize
    ensures { result ≡ day * 64 + period }
{
    day as usize * DAY as usize + period as usize
}

/// Returns whether a period is unavailable to a course; false if the course, the day or the period is out of range.
pub fn is_barred(marks: &[Marks], course: u32, day: u32, period: u32) -> bool
    ensures { result ≡ is_marked_at marks.now course day period }
{
    period < DAY && has_at(marks, course as usize, mark_place(day, period))
}

/// Adds an unavailability.
fn add_row(
    list: &mut UnavailabilityList,
    days: u32,
    row: UnavailabilityRow,
) -> Result<(), AllocError>
    requires barred { IsBarred (length list.old.marks.items) days list.old }
    requires inside { IsInWeek (length list.old.marks.items) days (unavailability_seen row) }
    ensures rows { OnOk result (unavailabilities_seen list.new.rows.items ≡ unavailabilities_seen list.old.rows.items ++ unavailability_seen row ∷ []) }
    ensures barred { OnOk result (IsBarred (length list.old.marks.items) days list.new) }
{
    list.rows.push(row)?;
    let marks = &mut list.marks[row.course as usize];
    marks.mark(mark_place(row.day, row.period));
    Ok(())
}

/// Adds unavailabilities.
pub fn add_rows(
    list: &mut UnavailabilityList,
    days: u32,
    rows: &[UnavailabilityRow],
) -> Result<(), AllocError>
    requires barred { IsBarred (length list.old.marks.items) days list.old }
    requires inside { All (IsInWeek (length list.old.marks.items) days) (unavailabilities_seen rows.now) }
    ensures rows { OnOk result (unavailabilities_seen list.new.rows.items
        ≡ unavailabilities_seen list.old.rows.items ++ unavailabilities_seen rows.now) }
    ensures barred { OnOk result (IsBarred (length list.old.marks.items) days list.new) }
{
    for row in rows {
        add_row(list, days, *row)?;
    }
    Ok(())
}
