//! The cells that a yes-fact takes from the courses in one period, if it must have one of its free cells there.

ghost use Rattle.std.specs.Prelude.{◌≡◌, ◌<◌, ◌==◌, ◌&&◌, ℕ, [], ◌∷◌, length, OnOk, not, ◌||◌};
ghost use Rattle.std.specs.List.{list_all};
ghost use Rattle.tt_list_laws.specs.Words.{has_number};
ghost use Rattle.tt_path.specs.Inner.Nested.{courses_of};
ghost use Rattle.tt_path_tables.specs.Inner.Rooms.{has_room};
ghost use Rattle.tt_instance.specs.Cells.{all_rooms};
ghost use Rattle.tt_path_tables.specs.Inner.Tables.{is_open, is_placed, IsTable, Loses};
ghost use Rattle.tt_path_tables.specs.Inner.Struck.{is_lost_to, loses_room, is_struck};
ghost use Rattle.tt_path_tables.specs.Inner.Spots.{IsSlot};
ghost use Rattle.tt_path_tables.specs.Inner.Bases.{IsBasis};
ghost use Rattle.tt_path_tables.specs.Inner.Demands.{IsDemand};

use crate::asking::{common_rooms, has_period};
use crate::basis::Basis;
use crate::demand::Demand;
use crate::removing::{keep_rooms, remove_rooms};
use crate::rooms::Rooms;
use crate::spot::Spot;
use std::alloc::AllocError;
use tt_bits::Trail;
use tt_instance::{Instance, Slot};
use tt_path::Pattern;

/// Returns the rooms that a course loses in the period if another course must have one of its free rooms.
fn rooms_lost_to(
    basis: &Basis<'_, '_>,
    pattern: &Pattern,
    slot: Slot,
    other: u32,
    course: u32,
) -> Rooms
    requires slot { IsSlot basis.now.instance.now slot }
    requires free { IsTable basis.now.instance.now basis.now.free.now.words }
    ensures { (r : ℕ) → has_room result r
        ≡ is_lost_to basis.now.instance.now basis.now.free.now.words pattern.now slot.day slot.period course r other }
{
    let instance = basis.instance;
    if other >= instance.courses() || instance.conflict(other, course) {
        return Rooms::All;
    }
    let spot = Spot {
        room: pattern.room,
        course: other,
        slot,
    };
    common_rooms(instance, basis.free, spot)
}

/// Returns the rooms that a course loses in the period if one of the courses, none of them this one, must have one of its
/// free rooms.
fn lost_rooms(basis: &Basis<'_, '_>, demand: &Demand<'_>, slot: Slot, course: u32) -> Rooms
    requires slot { IsSlot basis.now.instance.now slot }
    requires free { IsTable basis.now.instance.now basis.now.free.now.words }
    ensures { (r : ℕ) → has_room result r
        ≡ list_all (is_lost_to basis.now.instance.now basis.now.free.now.words demand.now.pattern.now slot.day slot.period
        course r) demand.now.courses.now }
{
    let mut lost = Rooms::All;
    for other in demand.courses {
        lost = lost.both(rooms_lost_to(basis, demand.pattern, slot, *other, course));
        if matches!(lost, Rooms::Nothing) {
            return Rooms::Nothing;
        }
    }
    lost
}

/// Removes a course's cells in these rooms.
fn remove_lost(
    instance: &Instance<'_>,
    live: &mut Trail,
    lost: Rooms,
    course: u32,
    slot: Slot,
) -> Result<(), AllocError>
    requires course { course < length instance.now.courses }
    requires slot { IsSlot instance.now slot }
    requires live { IsTable instance.now live.old.words }
    ensures ok { OnOk result (Loses instance.now live.old.words
        (λ x. is_placed course slot.day slot.period x && has_room lost x.room) live.new.words) }
    ensures unchanged { live.new.earlier ≡ live.old.earlier }
{
    match lost {
        Rooms::All => {
            let spot = Spot {
                room: None,
                course,
                slot,
            };
            remove_rooms(instance, live, spot)?;
            Ok(())
        }
        Rooms::One(room) => {
            let spot = Spot {
                room: Some(room),
                course,
                slot,
            };
            remove_rooms(instance, live, spot)?;
            Ok(())
        }
        Rooms::Nothing => Ok(()),
    }
}

/// Removes the cells that a course loses in the period if one of the courses must have one of its free rooms.
fn strike(
    basis: &Basis<'_, '_>,
    live: &mut Trail,
    demand: &Demand<'_>,
    slot: Slot,
    course: u32,
) -> Result<(), AllocError>
    requires demand { IsDemand basis.now.instance.now demand.now }
    requires slot { IsSlot basis.now.instance.now slot }
    requires free { IsTable basis.now.instance.now basis.now.free.now.words }
    requires live { IsTable basis.now.instance.now live.old.words }
    requires course { course < length basis.now.instance.now.courses }
    ensures ok { OnOk result (Loses basis.now.instance.now live.old.words
        (λ x. is_placed course slot.day slot.period x
        && loses_room basis.now.instance.now basis.now.free.now.words demand.now.pattern.now slot.day slot.period
        demand.now.courses.now x.course x.room) live.new.words) }
    ensures unchanged { live.new.earlier ≡ live.old.earlier }
{
    let instance = basis.instance;
    let anywhere = Spot {
        room: None,
        course,
        slot,
    };
    if !has_period(instance, live, anywhere) {
        return Ok(());
    }
    if demand.pattern.who.has_course(instance, course) {
        let spot = Spot {
            room: demand.pattern.room,
            course,
            slot,
        };
        keep_rooms(instance, live, basis.free, spot)?;
        return Ok(());
    }
    let lost = lost_rooms(basis, demand, slot, course);
    remove_lost(instance, live, lost, course, slot)?;
    Ok(())
}

/// Removes the cells that each course loses in the period if one of the courses must have one of its free rooms.
fn kill(
    basis: &Basis<'_, '_>,
    live: &mut Trail,
    demand: &Demand<'_>,
    slot: Slot,
) -> Result<(), AllocError>
    requires demand { IsDemand basis.now.instance.now demand.now }
    requires slot { IsSlot basis.now.instance.now slot }
    requires free { IsTable basis.now.instance.now basis.now.free.now.words }
    requires live { IsTable basis.now.instance.now live.old.words }
    ensures ok { OnOk result (Loses basis.now.instance.now live.old.words
        (is_struck basis.now.instance.now basis.now.free.now.words demand.now.pattern.now slot.day slot.period
        demand.now.courses.now) live.new.words) }
    ensures unchanged { live.new.earlier ≡ live.old.earlier }
{
    for course in 0..basis.instance.courses() {
        strike(basis, live, demand, slot, course)?;
    }
    Ok(())
}

/// Removes a period from the given courses.
#[inline(always)]
fn strike_period(
    instance: &Instance<'_>,
    live: &mut Trail,
    courses: &[u32],
    slot: Slot,
) -> Result<(), AllocError>
    requires slot { IsSlot instance.now slot }
    requires live { IsTable instance.now live.old.words }
    ensures ok { OnOk result (Loses instance.now live.old.words
        (λ x. has_number courses.now x.course && ((x.day == slot.day) && (x.period == slot.period))) live.new.words) }
    ensures unchanged { live.new.earlier ≡ live.old.earlier }
{
    for course in courses {
        if *course >= instance.courses() {
            continue;
        }
        let spot = Spot {
            room: None,
            course: *course,
            slot,
        };
        remove_rooms(instance, live, spot)?;
    }
    Ok(())
}

/// Removes a room in a period from a course, unless it is the one that must have it.
fn strike_room_of(
    instance: &Instance<'_>,
    live: &mut Trail,
    room: u32,
    slot: Slot,
    course: u32,
    other: u32,
) -> Result<(), AllocError>
    requires slot { IsSlot instance.now slot }
    requires other { other < length instance.now.courses }
    requires live { IsTable instance.now live.old.words }
    ensures ok { OnOk result (Loses instance.now live.old.words
        (λ x. is_placed other slot.day slot.period x && (not (x.course == course) && (room == x.room))) live.new.words) }
    ensures unchanged { live.new.earlier ≡ live.old.earlier }
{
    if other == course {
        return Ok(());
    }
    let spot = Spot {
        room: Some(room),
        course: other,
        slot,
    };
    remove_rooms(instance, live, spot)?;
    Ok(())
}

/// Removes a room in a period from each course except the one that must have it. Not inlined, since mostly more rooms are left.
#[inline(never)]
fn strike_room(
    instance: &Instance<'_>,
    live: &mut Trail,
    room: u32,
    slot: Slot,
    course: u32,
) -> Result<(), AllocError>
    requires slot { IsSlot instance.now slot }
    requires live { IsTable instance.now live.old.words }
    ensures ok { OnOk result (Loses instance.now live.old.words
        (λ x. (x.day == slot.day) && (x.period == slot.period) && (not (x.course == course) && (room == x.room)))
        live.new.words) }
    ensures unchanged { live.new.earlier ≡ live.old.earlier }
{
    for other in 0..instance.courses() {
        strike_room_of(instance, live, room, slot, course, other)?;
    }
    Ok(())
}

/// Does what `kill` does for one course, from the rooms that equal each of its free rooms: the courses that conflict with it lose
/// the period, and if it has only one free room, all other courses lose that room.
#[inline(always)]
pub fn kill_one(
    basis: &Basis<'_, '_>,
    live: &mut Trail,
    pattern: &Pattern,
    slot: Slot,
    course: u32,
    common: Rooms,
) -> Result<(), AllocError>
    requires one { courses_of basis.now.instance.now pattern.now.who ≡ course ∷ [] }
    requires basis { IsBasis basis.now }
    requires slot { IsSlot basis.now.instance.now slot }
    requires course { course < length basis.now.instance.now.courses }
    requires common { (r : ℕ) → has_room common r ≡ list_all
        (λ k. not (is_open basis.now.instance.now basis.now.free.now.words pattern.now.room course slot.day slot.period k)
        || (k == r)) (all_rooms basis.now.instance.now) }
    requires live { IsTable basis.now.instance.now live.old.words }
    ensures ok { OnOk result (Loses basis.now.instance.now live.old.words
        (is_struck basis.now.instance.now basis.now.free.now.words pattern.now slot.day slot.period (course ∷ []))
        live.new.words) }
    ensures unchanged { live.new.earlier ≡ live.old.earlier }
{
    let instance = basis.instance;
    let conflicts = basis.links.conflicts_of(course);
    let spot = Spot {
        room: pattern.room,
        course,
        slot,
    };
    match common {
        Rooms::Nothing => {
            strike_period(instance, live, conflicts, slot)?;
            keep_rooms(instance, live, basis.free, spot)?;
            Ok(())
        }
        Rooms::One(room) => {
            strike_period(instance, live, conflicts, slot)?;
            strike_room(instance, live, room, slot, course)?;
            keep_rooms(instance, live, basis.free, spot)?;
            Ok(())
        }
        Rooms::All => {
            let courses = [course];
            let demand = Demand {
                pattern,
                courses: &courses,
            };
            kill(basis, live, &demand, slot)?;
            Ok(())
        }
    }
}

/// Does what `kill` does, by the lists of conflicts if that is faster.
pub fn kill_by_links(
    basis: &Basis<'_, '_>,
    live: &mut Trail,
    demand: &Demand<'_>,
    slot: Slot,
) -> Result<(), AllocError>
    requires demand { IsDemand basis.now.instance.now demand.now }
    requires basis { IsBasis basis.now }
    requires slot { IsSlot basis.now.instance.now slot }
    requires live { IsTable basis.now.instance.now live.old.words }
    ensures ok { OnOk result (Loses basis.now.instance.now live.old.words
        (is_struck basis.now.instance.now basis.now.free.now.words demand.now.pattern.now slot.day slot.period
        demand.now.courses.now) live.new.words) }
    ensures unchanged { live.new.earlier ≡ live.old.earlier }
{
    let pattern = demand.pattern;
    let courses = demand.courses;
    if courses.len() == 1 && courses[0] < basis.instance.courses() {
        let course = courses[0];
        let spot = Spot {
            room: pattern.room,
            course,
            slot,
        };
        let common = common_rooms(basis.instance, basis.free, spot);
        kill_one(basis, live, pattern, slot, course, common)?;
        return Ok(());
    }
    kill(basis, live, demand, slot)?;
    Ok(())
}
