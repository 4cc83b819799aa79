//! Calls that allocate memory, each between two marks: hostile/run.py refuses their allocations in turn. A call returns the same result as
//! without a refusal, or that memory ran out, and then its borrowed arguments are unchanged.

use crate::timetables::occupied;
use std::alloc::Global;
use std::test::Fail;
use tt_instance_read::read_instance;
use tt_moves_chain::{Chain, ChainFault, chain};
use tt_occupancy::{Occupied, Refused};
use tt_rules::score;
use tt_search::{Unwatched, construct, descend, improve};
use tt_table::{Entry, read_solution};
use tt_testing_samples::{MARK, MINI, MINI_SOLUTION};

/// The entries of Mini's solution.
const ENTRIES: [Entry; 2] = [
    Entry {
        course: 0,
        room: 0,
        day: 0,
        period: 0,
    },
    Entry {
        course: 1,
        room: 0,
        day: 0,
        period: 2,
    },
];

#[test]
fn the_call_occupied_new(rt: HostRuntime) -> Result<(), Fail> {
    let instance = read_instance(rt.alloc(), MINI.as_bytes())?;
    let table = read_solution(rt.alloc(), &instance, MINI_SOLUTION.as_bytes())?;
    println!(rt; "{MARK}")?;
    let made = Occupied::new(rt.alloc(), &instance, table);
    println!(rt; "{MARK}")?;
    let (table, refused) = match made {
        Ok(occupied) => (occupied.into_timetable(), false),
        Err(Refused { table }) => (table, true),
    };
    assert_eq!(rt; table.entries(), ENTRIES.as_slice());
    if refused {
        Err(Fail::new(format_args!("out of memory")))
    } else {
        Ok(())
    }
}

/// Returns the chain of the first entry to the second period, or `None` if there is no such entry or period.
fn first_chain(alloc: Global, occupied: &Occupied<'_, '_>) -> Result<Option<Chain>, ChainFault> {
    let instance = occupied.instance();
    if occupied.table().is_empty() || instance.days() == 0 || instance.periods() < 2 {
        return Ok(None);
    }
    Ok(Some(chain(alloc, occupied, 0, 0, 1)?))
}

/// Checks whether both entries are members of the chain.
fn chains_both(alloc: Global, occupied: &Occupied<'_, '_>) -> Result<bool, ChainFault> {
    let found = first_chain(alloc, occupied)?;
    Ok(found.is_some_and(|chain| chain.members() == [0, 1].as_slice()))
}

#[test]
fn the_call_chain(rt: HostRuntime) -> Result<(), Fail> {
    let instance = read_instance(rt.alloc(), MINI.as_bytes())?;
    let occupied = occupied(rt.alloc(), &instance, "a R 0 0 b R 0 1")?;
    println!(rt; "{MARK}")?;
    let both = chains_both(rt.alloc(), &occupied);
    println!(rt; "{MARK}")?;
    assert!(rt; both?);
    Ok(())
}

#[test]
fn the_call_construct(rt: HostRuntime) -> Result<(), Fail> {
    let instance = read_instance(rt.alloc(), MINI.as_bytes())?;
    println!(rt; "{MARK}")?;
    let table = construct(rt.alloc(), &instance, 7);
    println!(rt; "{MARK}")?;
    assert_eq!(rt; table?.len(), 2);
    Ok(())
}

#[test]
fn the_call_descend(rt: HostRuntime) -> Result<(), Fail> {
    let instance = read_instance(rt.alloc(), MINI.as_bytes())?;
    let table = read_solution(rt.alloc(), &instance, MINI_SOLUTION.as_bytes())?;
    let copy = table.copy()?;
    println!(rt; "{MARK}")?;
    let descent = descend(rt.alloc(), &instance, table, 10);
    println!(rt; "{MARK}")?;
    assert_eq!(rt; copy.entries(), ENTRIES.as_slice());
    let descent = descent?;
    assert_eq!(rt;
        (descent.settled, score(&instance, &descent.table).cost()),
        (true, 1)
    );
    Ok(())
}

#[test]
fn the_call_improve(rt: HostRuntime) -> Result<(), Fail> {
    let instance = read_instance(rt.alloc(), MINI.as_bytes())?;
    let table = read_solution(rt.alloc(), &instance, MINI_SOLUTION.as_bytes())?;
    let copy = table.copy()?;
    println!(rt; "{MARK}")?;
    let better = improve(rt.alloc(), &instance, table, 1, 100, &mut Unwatched);
    println!(rt; "{MARK}")?;
    assert_eq!(rt; copy.entries(), ENTRIES.as_slice());
    assert_eq!(rt; score(&instance, &better?).cost(), 1);
    Ok(())
}
