//! The call `best` from the results of an earlier search, and its answers on the way.

use crate::counting::Counting;
use std::alloc::{AllocError, Global};
use std::test::Fail;
use tt_app::{AppFault, BestAnswer, BestSearch, UNNAMED, best};
use tt_testing_samples::{GAP, GAP_PROOF, MINI_SOLUTION};

/// A number of questions that no search in this file reaches.
const PATIENT: u64 = u64::MAX;

/// Claims that Gap costs at least 9, which is wrong.
const WRONG_PROOF: &str = "CTTP 1 bound 9 B ; end";

/// Claims only the seat that the room lacks.
const WEAK_PROOF: &str = "CTTP 1 bound 1 B C c1 1 ; end";

/// Returns the answer for Gap.
fn best_of(
    alloc: Global,
    start: Option<&[u8]>,
    proofs: &[&str],
    watch: &mut Counting,
) -> Result<Result<BestAnswer, AppFault>, AllocError> {
    let mut texts = Vec::new(alloc);
    for proof in proofs {
        texts.push(proof.as_bytes().to_vec(alloc)?)?;
    }
    let search = BestSearch {
        rounds: 3,
        seed: 1,
        start,
        proofs: &texts,
    };
    Ok(best(alloc, GAP.as_bytes(), search, UNNAMED, "", watch))
}

#[test]
fn a_settled_start_is_not_searched(rt: HostRuntime) -> Result<(), Fail> {
    let mut watch = Counting::new(rt.alloc(), PATIENT);
    let start = Some(MINI_SOLUTION.as_bytes());
    let answer = best_of(rt.alloc(), start, &[GAP_PROOF], &mut watch)??;
    assert!(rt; answer.out.as_slice() == b"cost 5 bound 5 optimal\n".as_slice());
    assert!(rt; answer.table.as_deref() == start);
    assert_eq!(rt; answer.proofs.len(), 1);
    assert_eq!(rt; (watch.rounds, watch.shows, watch.answers), (1, 0, 0));
    Ok(())
}

#[test]
fn proofs_that_do_not_hold_are_left_out(rt: HostRuntime) -> Result<(), Fail> {
    for (start, proofs) in [
        (
            Some(MINI_SOLUTION.as_bytes()),
            [WRONG_PROOF, GAP_PROOF, WEAK_PROOF].as_slice(),
        ),
        (None, [WRONG_PROOF].as_slice()),
    ] {
        let mut watch = Counting::new(rt.alloc(), PATIENT);
        let answer = best_of(rt.alloc(), start, proofs, &mut watch)??;
        assert!(rt; answer.out.as_slice() == b"cost 5 bound 5 optimal\n".as_slice());
        assert_eq!(rt; answer.proofs.len(), 1);
    }
    Ok(())
}

#[test]
fn a_start_that_breaks_a_rule(rt: HostRuntime) -> Result<(), Fail> {
    let mut watch = Counting::new(rt.alloc(), PATIENT);
    let start = Some(b"a R 0 0 b R 0 0".as_slice());
    let answer = best_of(rt.alloc(), start, &[], &mut watch)??;
    assert!(rt; answer.out.as_slice() == b"cost 5 bound 5 optimal\n".as_slice());
    Ok(())
}

#[test]
fn a_start_that_is_no_timetable(rt: HostRuntime) -> Result<(), Fail> {
    let mut watch = Counting::new(rt.alloc(), PATIENT);
    let start = Some(b"c R 0 0".as_slice());
    let answer = best_of(rt.alloc(), start, &[], &mut watch)?;
    assert!(rt; matches!(answer.err(), Some(AppFault::Solution(_))));
    Ok(())
}

#[test]
fn answers_on_the_way(rt: HostRuntime) -> Result<(), Fail> {
    let mut watch = Counting::new(rt.alloc(), PATIENT);
    let start = Some(MINI_SOLUTION.as_bytes());
    let answer = best_of(rt.alloc(), start, &[WEAK_PROOF], &mut watch)??;
    assert_eq!(rt; (watch.rounds, watch.answers), (1, 1));
    assert!(rt; watch.line.as_slice() == b"cost 5 bound 1\n".as_slice());
    assert!(rt; answer.out.as_slice() == b"cost 5 bound 5 optimal\n".as_slice());
    Ok(())
}

#[test]
fn a_search_that_is_over_at_once(rt: HostRuntime) -> Result<(), Fail> {
    for (proofs, line) in [
        ([].as_slice(), "cost 5 bound 0\n"),
        ([WEAK_PROOF].as_slice(), "cost 5 bound 1\n"),
    ] {
        let mut watch = Counting::new(rt.alloc(), 0);
        let start = Some(MINI_SOLUTION.as_bytes());
        let answer = best_of(rt.alloc(), start, proofs, &mut watch)??;
        assert!(rt; answer.out.as_slice() == line.as_bytes());
        assert!(rt; answer.table.as_deref() == start);
        assert_eq!(rt; (watch.shows, watch.answers), (0, 0));
    }
    Ok(())
}
