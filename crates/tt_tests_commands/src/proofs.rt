//! Proofs that are cut to each length, and those of searches with each limit.

use std::alloc::Global;
use std::test::Fail;
use tt_testing_runs::{MemoryFiles, Outcome, run_on, run_with};
use tt_testing_samples::{GAP, GAP_PROOF, MINI_SOLUTION};

#[test]
fn a_tree_cut_to_each_length(rt: HostRuntime) -> Result<(), Fail> {
    for count in 0..=GAP_PROOF.len() {
        let files: [(&str, &[u8]); 3] = [
            ("a.ctt", GAP.as_bytes()),
            ("a.sol", MINI_SOLUTION.as_bytes()),
            ("a.proof", &GAP_PROOF.as_bytes()[..count]),
        ];
        let outcome = run_with(rt.alloc(), &["check", "a.ctt", "a.sol", "a.proof"], &files)?;
        if count < 123 {
            assert_eq!(rt; (outcome.status, outcome.out.as_str()), (2, ""));
            assert!(rt; outcome.err.starts_with("refused: proof: "), "{count}");
            assert!(rt; outcome.err.contains(" at byte "), "{count}");
        } else {
            assert_eq!(rt; outcome.answer(), (0, "yes cost 5 bound 5 optimal\n", ""));
        }
    }
    Ok(())
}

fn filled(alloc: Global) -> Result<MemoryFiles, Fail> {
    let memory = MemoryFiles::new(alloc);
    memory.put("a.ctt", GAP.as_bytes())?;
    Ok(memory)
}

fn solved(alloc: Global, memory: &MemoryFiles, nodes: &str) -> Result<Outcome, Fail> {
    let words = ["solve", "a.ctt", "a.out", "a.proof", "--nodes", nodes];
    run_on(alloc, &words, memory)
}

fn bounded(alloc: Global, memory: &MemoryFiles) -> Result<Outcome, Fail> {
    run_on(alloc, &["bound", "a.ctt", "a.proof"], memory)
}

/// Checks whether a line of a search has this cost and this bound, finished or unfinished.
fn says(alloc: Global, line: &str, bound: &str) -> Result<bool, Fail> {
    let finished = format!(in alloc; "cost 5 {bound} finished")?;
    let unfinished = format!(in alloc; "cost 5 {bound} unfinished")?;
    Ok(line.trim_end() == finished.as_str() || line.trim_end() == unfinished.as_str())
}

#[test]
fn each_limit_up_to_a_hundred(rt: HostRuntime) -> Result<(), Fail> {
    for limit in 1usize..=100 {
        let memory = filled(rt.alloc())?;
        let nodes = format!(in rt.alloc(); "{limit}")?;
        let outcome = solved(rt.alloc(), &memory, &nodes)?;
        assert_eq!(rt; (outcome.status, outcome.err.as_str()), (0, ""));
        let bound = bounded(rt.alloc(), &memory)?;
        assert_eq!(rt; (bound.status, bound.err.as_str()), (0, ""));
        assert!(rt;
            says(rt.alloc(), &outcome.out, bound.out.trim_end())?,
            "{}",
            outcome.out
        );
        let proof = memory.text("a.proof")?.unwrap_or(String::new(rt.alloc()));
        // The lines of the header and the end are not nodes.
        let written = proof.lines().count().saturating_sub(2);
        if outcome.out.ends_with("unfinished\n") {
            assert!(rt; limit <= written && written < 2 * limit, "{limit}");
        } else {
            assert!(rt; written <= limit, "{limit}");
        }
    }
    Ok(())
}
