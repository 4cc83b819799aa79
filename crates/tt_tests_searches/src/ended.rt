//! Calls whose watch ends the search.

use crate::counting::Counting;
use std::alloc::Global;
use std::test::Fail;
use tt_app::{AppFault, Effort, ImproveSearch, TreeEffort, improve, parts, solve};
use tt_testing_samples::{GAP, MINI, MINI_SOLUTION};
use tt_watch::Unwatched;

/// Returns the line of `improve` on Mini, if its search is ended after some questions.
fn improved(
    alloc: Global,
    solution: &str,
    completes: bool,
    patience: u64,
) -> Result<Vec<u8>, AppFault> {
    let search = ImproveSearch {
        seed: 1,
        steps: 100,
        runs: 3,
        completes,
    };
    let mut watch = Counting::new(alloc, patience);
    let (instance, solution) = (MINI.as_bytes(), solution.as_bytes());
    Ok(improve(alloc, instance, solution, search, &mut watch)?.out)
}

#[test]
fn an_improvement(rt: HostRuntime) -> Result<(), Fail> {
    for (solution, completes, patience, line) in [
        (MINI_SOLUTION, false, 0, "hard 0 cost 5\n"),
        (MINI_SOLUTION, false, u64::MAX, "hard 0 cost 1\n"),
        ("", true, u64::MAX, "hard 0 cost 1\n"),
        ("", false, u64::MAX, "hard 2 cost 10\n"),
    ] {
        let out = improved(rt.alloc(), solution, completes, patience)?;
        assert!(rt; out.as_slice() == line.as_bytes(), "{line}");
    }
    Ok(())
}

#[test]
fn a_tree(rt: HostRuntime) -> Result<(), Fail> {
    let tree = TreeEffort {
        seed: 1,
        nodes: 100,
    };
    let mut watch = Counting::new(rt.alloc(), 0);
    let answer = solve(rt.alloc(), GAP.as_bytes(), tree, &mut watch)?;
    assert!(rt; answer.out.ends_with(b" bound 1 unfinished\n"));
    assert!(rt; answer.proof.is_some());
    Ok(())
}

#[test]
fn parts_of_a_sum(rt: HostRuntime) -> Result<(), Fail> {
    let effort = Effort {
        nodes: 100,
        seed: 1,
    };
    for (patience, line) in [(0, "bound 1 parts 1\n"), (u64::MAX, "bound 5 parts 2\n")] {
        let mut watch = Counting::new(rt.alloc(), patience);
        let answer = parts(rt.alloc(), GAP.as_bytes(), None, effort, &mut watch)?;
        assert!(rt; answer.out.as_slice() == line.as_bytes(), "{line}");
    }
    Ok(())
}

#[test]
fn parts_by_a_solution(rt: HostRuntime) -> Result<(), Fail> {
    let effort = Effort {
        nodes: 100,
        seed: 1,
    };
    let found = |guide: &[u8]| {
        parts(
            rt.alloc(),
            GAP.as_bytes(),
            Some(guide),
            effort,
            &mut Unwatched,
        )
    };
    let answer = found(MINI_SOLUTION.as_bytes())?;
    assert!(rt; answer.out.as_slice() == b"bound 5 parts 2\n".as_slice());
    let refused = found(b"c R 0 0".as_slice());
    assert!(rt; matches!(refused.err(), Some(AppFault::Solution(_))));
    Ok(())
}
