//! The results of `check` for proofs whose reads end early or fail.

use std::test::Fail;
use tt_app::{AppFault, check};
use tt_testing_samples::{GAP, GAP_PROOF, MINI_SOLUTION, WIDE, WIDE_SOLUTION};
use tt_text::{Pieces, Source};

const WIDE_PROOF: &str = "CTTP 1 bound 5 B D c0 ; end";

#[test]
fn a_proof_of_a_broken_solution_is_not_read(rt: HostRuntime) -> Result<(), Fail> {
    let mut proof = Pieces::new(WIDE_PROOF.as_bytes(), 4, 1);
    let answer = check(rt.alloc(), WIDE.as_bytes(), b"", &mut proof)?;
    assert_eq!(rt;
        (answer.status, answer.out.as_slice()),
        (1, b"broken hard 2 cost 15\n".as_slice())
    );
    assert!(rt; answer.table.is_none() && answer.proof.is_none());
    assert!(rt; !proof.failed());
    Ok(())
}

#[test]
fn a_proof_in_pieces(rt: HostRuntime) -> Result<(), Fail> {
    for fail_at in 0..9 {
        let mut proof = Pieces::new(WIDE_PROOF.as_bytes(), 4, fail_at);
        let answer = check(
            rt.alloc(),
            WIDE.as_bytes(),
            WIDE_SOLUTION.as_bytes(),
            &mut proof,
        );
        assert_eq!(rt; proof.failed(), fail_at > 0, "at {fail_at}");
        match answer {
            Ok(answer) => {
                assert_eq!(rt; fail_at, 0);
                assert_eq!(rt;
                    answer.out.as_slice(),
                    b"yes cost 5 bound 5 optimal\n".as_slice()
                );
            }
            Err(fault) => {
                assert_eq!(rt; fault, AppFault::ReadFailed);
            }
        }
    }
    Ok(())
}

#[test]
fn a_tree_in_pieces_of_each_size(rt: HostRuntime) -> Result<(), Fail> {
    let solution = MINI_SOLUTION.as_bytes();
    for size in 1..=GAP_PROOF.len() {
        let mut proof = Pieces::new(GAP_PROOF.as_bytes(), size, 0);
        let answer = check(rt.alloc(), GAP.as_bytes(), solution, &mut proof)?;
        assert_eq!(rt;
            answer.out.as_slice(),
            b"yes cost 5 bound 5 optimal\n".as_slice()
        );
    }
    Ok(())
}

#[test]
fn each_read_of_a_tree_fails(rt: HostRuntime) -> Result<(), Fail> {
    let solution = MINI_SOLUTION.as_bytes();
    // One byte in each read; the last read finds the end.
    for fail_at in 1..=125 {
        let mut proof = Pieces::new(GAP_PROOF.as_bytes(), 1, fail_at);
        let answer = check(rt.alloc(), GAP.as_bytes(), solution, &mut proof);
        assert_eq!(rt; answer.err(), Some(AppFault::ReadFailed));
    }
    Ok(())
}
