//! The changes by steps, and chains of entries.

use crate::timetables::{occupied, text_of};
use std::alloc::Global;
use std::test::Fail;
use tt_instance_read::read_instance;
use tt_moves::{Change, Step, apply, can_step, change, change_within, hard_change, lowers, undo};
use tt_moves_chain::{ChainFault, chain, swap_chain};
use tt_occupancy::Occupied;
use tt_testing_samples::{MINI, MINI_SOLUTION, TOUR, edited};

/// Two courses that do not conflict, two rooms and two periods.
const PAIR: &str =
    "Name: Pair\nCourses: 2\nRooms: 2\nDays: 1\nPeriods_per_day: 2\nCurricula: 0\nConstraints: 0\n\nCOURSES:\nx t1 1 1 1\ny t2 1 1 1\n\nROOMS:\nA 10\nB 10\n\nCURRICULA:\n\nUNAVAILABILITY_CONSTRAINTS:\n\nEND.\n";

fn moved_to(entry: u32, room: u32, day: u32, period: u32) -> Step {
    Step::Move {
        entry,
        room,
        day,
        period,
    }
}

/// Returns the changes by a step, and whether it lowers the pair; `None` if it can't be made.
fn changed(occupied: &Occupied<'_, '_>, step: Step) -> Option<(i64, i64, bool)> {
    if !can_step(occupied, step) {
        return None;
    }
    let change = change(occupied, step);
    Some((change.hard, change.cost, lowers(occupied, step)))
}

/// Returns the changes by a step to the timetable that a solution spells, and whether it lowers the pair; `None` if it can't be made.
fn changed_in(
    alloc: Global,
    instance: &str,
    solution: &str,
    step: Step,
) -> Result<Option<(i64, i64, bool)>, Fail> {
    let instance = read_instance(alloc, instance.as_bytes())?;
    let occupied = occupied(alloc, &instance, solution)?;
    Ok(changed(&occupied, step))
}

#[test]
fn changes_of_steps(rt: HostRuntime) -> Result<(), Fail> {
    let swap = Step::Swap {
        first: 0,
        second: 1,
    };
    for (step, changes) in [
        (moved_to(1, 0, 0, 1), Some((0, -4, true))),
        (moved_to(1, 0, 0, 0), Some((2, 0, false))),
        (swap, Some((0, 0, false))),
        (moved_to(2, 0, 0, 0), None),
        (moved_to(1, 1, 0, 0), None),
    ] {
        assert_eq!(rt;
            changed_in(rt.alloc(), MINI, MINI_SOLUTION, step)?,
            changes,
            "{step:?}"
        );
    }
    Ok(())
}

/// Returns the change of the hard count by a step, and the change of the score within a limit; `None` if the step can't be made.
fn changed_within(
    occupied: &Occupied<'_, '_>,
    step: Step,
    limit: i64,
) -> Option<(i64, Option<Change>)> {
    if !can_step(occupied, step) {
        return None;
    }
    Some((
        hard_change(occupied, step),
        change_within(occupied, step, limit),
    ))
}

/// Returns the change of the hard count of Mini's solution by a step, and the change of the score within a limit; `None` if the step can't be
/// made.
fn mini_changed_within(
    alloc: Global,
    step: Step,
    limit: i64,
) -> Result<Option<(i64, Option<Change>)>, Fail> {
    let instance = read_instance(alloc, MINI.as_bytes())?;
    let occupied = occupied(alloc, &instance, MINI_SOLUTION)?;
    Ok(changed_within(&occupied, step, limit))
}

#[test]
fn changes_within_a_limit(rt: HostRuntime) -> Result<(), Fail> {
    let step = moved_to(1, 0, 0, 0);
    let within = Change { hard: 2, cost: 0 };
    for (limit, change) in [(2, Some(within)), (1, None)] {
        assert_eq!(rt;
            mini_changed_within(rt.alloc(), step, limit)?,
            Some((2, change))
        );
    }
    Ok(())
}

#[test]
fn a_room_that_is_used_no_longer(rt: HostRuntime) -> Result<(), Fail> {
    let solution = "x A 0 0 x B 1 0 x A 2 0";
    let change = changed_in(rt.alloc(), TOUR, solution, moved_to(1, 0, 1, 0))?;
    assert_eq!(rt; change, Some((0, -1, true)));
    Ok(())
}

/// A step that is made and undone.
#[derive(Drop)]
struct TakenBack {
    /// The costs after the step and after undoing it.
    costs: (u64, u64),
    between: String,
    after: String,
    /// The step that undoes it.
    back: Step,
}

/// Makes a step and undoes it.
fn take_back(
    alloc: Global,
    occupied: &mut Occupied<'_, '_>,
    step: Step,
) -> Result<TakenBack, Fail> {
    if !can_step(occupied, step) {
        return Err(Fail::new(format_args!("no such step")));
    }
    let back = apply(occupied, step);
    let cost = occupied.score().cost();
    let between = text_of(alloc, occupied)?;
    undo(occupied, back);
    let after = text_of(alloc, occupied)?;
    Ok(TakenBack {
        costs: (cost, occupied.score().cost()),
        between,
        after,
        back,
    })
}

/// Makes a step on Mini's solution and undoes it.
fn mini_taken_back(alloc: Global, step: Step) -> Result<TakenBack, Fail> {
    let instance = read_instance(alloc, MINI.as_bytes())?;
    let mut occupied = occupied(alloc, &instance, MINI_SOLUTION)?;
    take_back(alloc, &mut occupied, step)
}

#[test]
fn steps_that_are_taken_back(rt: HostRuntime) -> Result<(), Fail> {
    let taken = mini_taken_back(rt.alloc(), moved_to(1, 0, 0, 1))?;
    assert_eq!(rt; (taken.costs, taken.back), ((1, 5), moved_to(1, 0, 0, 2)));
    let texts = (taken.between.as_str(), taken.after.as_str());
    assert_eq!(rt; texts, ("a R 0 0\nb R 0 1\n", MINI_SOLUTION));
    Ok(())
}

/// A chain whose members changed places, and the timetable afterwards.
#[derive(Drop)]
struct ChainSwap {
    members: Vec<u32>,
    text: String,
    /// Whether no hard rule is broken.
    feasible: bool,
    cost: u64,
}

/// Swaps the chain of the first entry to a period of the first day.
fn swap_from_first(
    alloc: Global,
    occupied: &mut Occupied<'_, '_>,
    period: u32,
) -> Result<ChainSwap, Fail> {
    let instance = occupied.instance();
    let inside = instance.days() > 0 && period < instance.periods();
    if occupied.table().is_empty() || !inside {
        return Err(Fail::new(format_args!("no such entry or period")));
    }
    let chain = match chain(alloc, occupied, 0, 0, period) {
        Ok(chain) => chain,
        Err(fault) => return Err(Fail::new(format_args!("{fault:?}"))),
    };
    if !chain.is_of(occupied) {
        return Err(Fail::new(format_args!("no chain of this timetable")));
    }
    swap_chain(occupied, &chain);
    let mut members = Vec::new(alloc);
    members.extend_from_slice(chain.members())?;
    let score = occupied.score();
    Ok(ChainSwap {
        members,
        text: text_of(alloc, occupied)?,
        feasible: score.feasible(),
        cost: score.cost(),
    })
}

/// Swaps the chain of the first entry to the second period, in the timetable that a solution spells.
fn swapped_in(alloc: Global, instance: &str, solution: &str) -> Result<ChainSwap, Fail> {
    let instance = read_instance(alloc, instance.as_bytes())?;
    let mut occupied = occupied(alloc, &instance, solution)?;
    swap_from_first(alloc, &mut occupied, 1)
}

#[test]
fn chains_that_change_places(rt: HostRuntime) -> Result<(), Fail> {
    for (instance, solution, members, text, cost) in [
        (
            MINI,
            "a R 0 0 b R 0 1",
            [0, 1].as_slice(),
            "a R 0 1\nb R 0 0\n",
            1,
        ),
        (PAIR, "x A 0 0 y A 0 1", &[0, 1], "x A 0 1\ny A 0 0\n", 0),
        (PAIR, "x A 0 0 y B 0 1", &[0], "x A 0 1\ny B 0 1\n", 0),
    ] {
        let after = swapped_in(rt.alloc(), instance, solution)?;
        assert_eq!(rt;
            (after.members.as_slice(), after.text.as_str()),
            (members, text)
        );
        assert_eq!(rt; (after.feasible, after.cost), (true, cost));
    }
    Ok(())
}

/// Returns the reason why the first entry has no chain to a period of the first day.
fn refused(
    alloc: Global,
    occupied: &Occupied<'_, '_>,
    period: u32,
) -> Result<Option<ChainFault>, Fail> {
    let instance = occupied.instance();
    let inside = instance.days() > 0 && period < instance.periods();
    if occupied.table().is_empty() || !inside {
        return Err(Fail::new(format_args!("no such entry or period")));
    }
    Ok(chain(alloc, occupied, 0, 0, period).err())
}

/// Returns the reason why the first entry has no chain to a period of the first day, in the timetable that a solution spells.
fn refused_in(
    alloc: Global,
    instance: &str,
    solution: &str,
    period: u32,
) -> Result<Option<ChainFault>, Fail> {
    let instance = read_instance(alloc, instance.as_bytes())?;
    let occupied = occupied(alloc, &instance, solution)?;
    refused(alloc, &occupied, period)
}

#[test]
fn chains_that_are_refused(rt: HostRuntime) -> Result<(), Fail> {
    let barred = edited(rt.alloc(), MINI, "Constraints: 0", "Constraints: 1")?;
    let barred = edited(
        rt.alloc(),
        &barred,
        "CONSTRAINTS:\n",
        "CONSTRAINTS:\nb 0 0\n",
    )?;
    for (instance, period, fault) in [
        (MINI, 0, ChainFault::SamePeriod),
        (barred.as_str(), 1, ChainFault::Unavailable(1)),
    ] {
        let reported = refused_in(rt.alloc(), instance, "a R 0 0 b R 0 1", period)?;
        assert_eq!(rt; reported, Some(fault));
    }
    Ok(())
}
