//! The proofs that a tree search gives its watch on the way, and its end.

use std::alloc::Global;
use std::test::Fail;
use tt_branch::{Start, solve};
use tt_instance_read::read_instance;
use tt_leaf::Bound;
use tt_proof_check::check_proof;
use tt_table::Entry;
use tt_testing_samples::GAP;
use tt_text::Pieces;
use tt_watch::{Progress, Watch};

/// A proof on the way, with the bound that its watch was shown.
#[derive(Drop)]
struct Taken {
    bound: u64,
    text: Vec<u8>,
}

/// Asks for each proof on the way and stores it, and ends its search after some questions.
#[derive(Drop)]
struct Asking {
    alloc: Global,
    patience: u64,
    taken: Vec<Taken>,
}

impl Watch for Asking {
    ghost use Rattle.std.specs.Prelude.{⊤};

    ghost has_ended = { λ _. ⊤ };

    fn see(&mut self, _progress: Progress, _best: &[Entry]) {}

    fn is_over(&mut self) -> bool {
        let is_over = self.patience == 0;
        self.patience = self.patience.saturating_sub(1);
        is_over
    }

    fn is_asking(&mut self, _bound: u64) -> bool {
        true
    }

    fn take(&mut self, bound: u64, proofs: &[Vec<u8>]) {
        for proof in proofs {
            if let Ok(text) = Vec::from_slice(self.alloc, proof.as_slice()) {
                let _ = self.taken.push(Taken { bound, text });
            }
        }
    }
}

/// Returns the watch of a search on Gap that is ended after some questions, the bound of its result, and whether it is finished.
fn searched(alloc: Global, patience: u64) -> Result<(Asking, Bound, bool), Fail> {
    let instance = read_instance(alloc, GAP.as_bytes())?;
    let mut watch = Asking {
        alloc,
        patience,
        taken: Vec::new(alloc),
    };
    let start = Start {
        root: &[],
        table: None,
    };
    let outcome = solve(alloc, &instance, start, 100, 1, &mut watch)?;
    Ok((watch, outcome.bound, outcome.finished))
}

#[test]
fn proofs_on_the_way(rt: HostRuntime) -> Result<(), Fail> {
    let instance = read_instance(rt.alloc(), GAP.as_bytes())?;
    let (watch, bound, finished) = searched(rt.alloc(), u64::MAX)?;
    assert_eq!(rt; (bound, finished), (Bound::AtLeast(5), true));
    assert!(rt; !watch.taken.is_empty());
    for taken in &watch.taken {
        let mut proof = Pieces::new(taken.text.as_slice(), 7, 0);
        let bound = check_proof(rt.alloc(), &instance, &mut proof)?;
        assert_eq!(rt; bound, Bound::AtLeast(taken.bound));
    }
    Ok(())
}

#[test]
fn a_search_that_is_over_at_once(rt: HostRuntime) -> Result<(), Fail> {
    let (watch, bound, finished) = searched(rt.alloc(), 0)?;
    assert_eq!(rt; (bound, finished), (Bound::AtLeast(1), false));
    assert!(rt; watch.taken.is_empty());
    Ok(())
}
