//! Proofs of greater bounds.

ghost use Rattle.std.specs.Prelude.{◌≡◌, IfOk};
ghost use Rattle.tt_table.specs.Table.{IsTimetable};
ghost use Rattle.tt_best.specs.Weeks.{IsWeekOn};

use crate::week::Week;
use std::alloc::{AllocError, Global};
use tt_instance::Instance;
use tt_leaf::Bound;
use tt_parts::{Effort, better_of, find_parts};
use tt_path::Fact;
use tt_rules::score;
use tt_table::Entry;
use tt_watch::Watch;

/// Checks whether nothing is left to search for: the cost of the timetable is the bound, or no timetable exists that breaks no hard rule.
pub fn is_settled(instance: &Instance<'_>, week: &Week) -> bool
    requires { IsTimetable instance.now week.now.table }
{
    let score = score(instance, &week.table);
    match week.parts.bound {
        Bound::AtLeast(points) => score.feasible() && score.cost() == points,
        Bound::Nothing => true,
    }
}

/// Searches for bounds below a root, guided by the timetable if it breaks no hard rule, and takes them if they are stronger.
pub fn search_bounds<W: Watch>(
    alloc: Global,
    instance: &Instance<'_>,
    root: &[Fact],
    week: Week,
    effort: Effort,
    watch: &mut W,
) -> Result<Week, AllocError>
    requires { IsWeekOn instance.now root.now week }
    ensures week { IfOk result (IsWeekOn instance.now root.now) }
    ensures same { IfOk result (λ w. w.table ≡ week.table) }
{
    let Week { table, parts } = week;
    let guide: &[Entry] = if score(instance, &table).feasible() {
        table.entries()
    } else {
        &[]
    };
    let found = find_parts(alloc, instance, root, effort, guide, watch)?;
    Ok(Week {
        table,
        parts: better_of(parts, found),
    })
}
