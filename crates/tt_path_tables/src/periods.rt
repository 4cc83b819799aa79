//! The periods in which a yes-fact has a free cell.

ghost use Rattle.std.specs.Prelude.{◌≡◌, ◌<◌, ◌≤◌, ◌*◌, [], ◌∷◌, MatchOption};
ghost use Rattle.tt_path_tables.specs.Inner.Tables.{IsTable};
ghost use Rattle.tt_path_tables.specs.Inner.Struck.{is_left_to, is_left};
ghost use Rattle.tt_path_tables.specs.Inner.Slots.{is_allowed, is_left_in, Covers, IsNone, IsFirst};
ghost use Rattle.tt_path_tables.specs.Inner.Spots.{IsSlot};

use crate::asking::{has_period, is_gone};
use crate::basis::Basis;
use crate::demand::Demand;
use crate::spot::Spot;
use tt_instance::{Instance, Slot};
use tt_path::{Pattern, is_none_or_equal};

/// Returns bounds of the numbers of the periods that a pattern allows.
pub fn slots_of(instance: &Instance<'_>, pattern: &Pattern) -> (u32, u32)
    ensures { Covers instance.now pattern.now result.0 result.1 }
{
    let days = instance.days();
    let periods = instance.periods();
    match (pattern.day, pattern.period) {
        (None, _) => (0, days * periods),
        (Some(day), None) if day < days => (day * periods, day * periods + periods),
        (Some(day), Some(period)) if day < days && period < periods => {
            (day * periods + period, day * periods + period + 1)
        }
        _ => (0, 0),
    }
}

/// Returns whether a pattern allows the period with this number.
pub fn is_allowed(instance: &Instance<'_>, pattern: &Pattern, slot: u32) -> bool
    ensures { result ≡ is_allowed instance.now pattern.now slot }
{
    let periods = instance.periods();
    is_none_or_equal(pattern.day, slot / periods)
        && is_none_or_equal(pattern.period, slot % periods)
}

/// Returns whether a course has a free room in the period that the pattern allows.
fn is_left_to(basis: &Basis<'_, '_>, pattern: &Pattern, slot: Slot, course: u32) -> bool
    requires slot { IsSlot basis.now.instance.now slot }
    requires free { IsTable basis.now.instance.now basis.now.free.now.words }
    ensures { result ≡ is_left_to basis.now.instance.now basis.now.free.now.words pattern.now slot.day slot.period course }
{
    let spot = Spot {
        room: pattern.room,
        course,
        slot,
    };
    course < basis.instance.courses() && has_period(basis.instance, basis.free, spot)
}

/// Returns whether one of the courses has a free room in the period that the pattern allows.
#[inline(always)]
pub fn is_left(basis: &Basis<'_, '_>, demand: &Demand<'_>, slot: Slot) -> bool
    requires slot { IsSlot basis.now.instance.now slot }
    requires free { IsTable basis.now.instance.now basis.now.free.now.words }
    ensures { result ≡ is_left basis.now.instance.now basis.now.free.now.words demand.now.pattern.now slot.day slot.period
        demand.now.courses.now }
{
    let pattern = demand.pattern;
    demand
        .courses
        .iter()
        .any(|course| is_left_to(basis, pattern, slot, *course))
}

/// Returns whether the pattern allows the period with this number and one of the courses has a free room there.
pub fn is_left_in(basis: &Basis<'_, '_>, demand: &Demand<'_>, slot: u32) -> bool
    requires slot { slot < basis.now.instance.now.days * basis.now.instance.now.periods }
    requires free { IsTable basis.now.instance.now basis.now.free.now.words }
    ensures { result ≡ is_left_in basis.now.instance.now basis.now.free.now.words demand.now.pattern.now
        demand.now.courses.now slot }
{
    let periods = basis.instance.periods();
    let day = slot / periods;
    let period = slot % periods;
    is_allowed(basis.instance, demand.pattern, slot) && is_left(basis, demand, Slot { day, period })
}

/// Returns the first of these periods in which a course has a free room that the pattern allows. A course all of whose cells were removed at once
/// isn't looked for in each period.
fn first_left_to(
    basis: &Basis<'_, '_>,
    pattern: &Pattern,
    course: u32,
    from: u32,
    to: u32,
) -> Option<u32>
    requires to { to ≤ basis.now.instance.now.days * basis.now.instance.now.periods }
    requires free { IsTable basis.now.instance.now basis.now.free.now.words }
    ensures { let left = is_left_in basis.now.instance.now basis.now.free.now.words pattern.now (course ∷ []) in
        MatchOption result (IsNone left from to) (λ k. IsFirst left from to k) }
{
    if course >= basis.instance.courses() || is_gone(basis.instance, basis.free, course) {
        return None;
    }
    let demand = Demand {
        pattern,
        courses: &[course],
    };
    for slot in from..to {
        if is_left_in(basis, &demand, slot) {
            return Some(slot);
        }
    }
    None
}

/// Returns the first of these periods in which one of the courses has a free room that the pattern allows.
pub fn first_left(basis: &Basis<'_, '_>, demand: &Demand<'_>, from: u32, to: u32) -> Option<u32>
    requires to { to ≤ basis.now.instance.now.days * basis.now.instance.now.periods }
    requires free { IsTable basis.now.instance.now basis.now.free.now.words }
    ensures { let left = is_left_in basis.now.instance.now basis.now.free.now.words demand.now.pattern.now
        demand.now.courses.now in
        MatchOption result (IsNone left from to) (λ k. IsFirst left from to k) }
{
    let mut first: Option<u32> = None;
    for course in demand.courses {
        let end = first.unwrap_or(to);
        if end == from {
            return first;
        }
        if let Some(slot) = first_left_to(basis, demand.pattern, *course, from, end) {
            first = Some(slot);
        }
    }
    first
}
