//! A watch for tests.

use std::alloc::Global;
use tt_app::{BestAnswer, WatchBest};
use tt_table::Entry;
use tt_watch::{Progress, Watch};

/// Ends its search after some questions, and counts what it is shown.
#[derive(Drop)]
pub struct Counting {
    /// The number of questions, whether the search is over, that are still answered by no.
    pub patience: u64,
    pub shows: u64,
    pub rounds: u64,
    pub answers: u64,
    /// The line of the last answer on the way.
    pub line: Vec<u8>,
}

impl Counting {
    /// Returns a watch that has counted nothing and has no line.
    pub fn new(alloc: Global, patience: u64) -> Counting {
        Counting {
            patience,
            shows: 0,
            rounds: 0,
            answers: 0,
            line: Vec::new(alloc),
        }
    }
}

impl Watch for Counting {
    ghost use Rattle.std.specs.Prelude.{⊤};

    ghost has_ended = { λ _. ⊤ };

    fn see(&mut self, _progress: Progress, _best: &[Entry]) {
        self.shows = self.shows.saturating_add(1);
    }

    fn is_over(&mut self) -> bool {
        let is_over = self.patience == 0;
        self.patience = self.patience.saturating_sub(1);
        is_over
    }
}

impl WatchBest for Counting {
    fn see_round(&mut self, round: u64, _most: u64) {
        self.rounds = round;
    }

    fn is_keeping(&mut self) -> bool {
        true
    }

    fn keep(&mut self, answer: &BestAnswer) {
        self.answers = self.answers.saturating_add(1);
        self.line.clear();
        let _ = self.line.extend_from_slice(&answer.out);
    }
}
