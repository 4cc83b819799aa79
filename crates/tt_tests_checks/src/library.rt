//! The crates used as a library.

use std::alloc::Global;
use std::test::Fail;
use tt_app::AppFault;
use tt_instance_read::read_instance;
use tt_leaf::Bound;
use tt_proof_check::check_proof;
use tt_rules::score;
use tt_table::read_solution;
use tt_testing_samples::{GAP, GAP_PROOF, MINI_SOLUTION};
use tt_text::Pieces;

/// Returns the cost of a solution, and the bound of a proof.
fn cost_and_bound(
    alloc: Global,
    instance: &str,
    solution: &str,
    proof: &str,
) -> Result<(u64, Bound), AppFault> {
    let instance = read_instance(alloc, instance.as_bytes())?;
    let table = read_solution(alloc, &instance, solution.as_bytes())?;
    let cost = score(&instance, &table).cost();
    let mut proof = Pieces::new(proof.as_bytes(), 4096, 0);
    let bound = check_proof(alloc, &instance, &mut proof)?;
    Ok((cost, bound))
}

#[test]
fn a_cost_and_its_bound(rt: HostRuntime) -> Result<(), Fail> {
    let found = cost_and_bound(rt.alloc(), GAP, MINI_SOLUTION, GAP_PROOF);
    assert_eq!(rt; found.ok(), Some((5, Bound::AtLeast(5))));
    let refused = cost_and_bound(rt.alloc(), GAP, "a R 0", GAP_PROOF);
    assert_eq!(rt; refused.ok(), None);
    Ok(())
}
