//! Watches `best`.

use crate::best_files::{BestFiles, BestShelf};
use std::io::Write;
use tt_call_searches::{BestAnswer, WatchBest};
use tt_cli_progress::World;
use tt_cli_saving::Keeper;
use tt_table::Entry;
use tt_watch::{Progress, Watch};

/// Shows how far `best` is, ends it in time, and keeps what it has.
pub struct BestKeeper<'k, 't, 's, 'a, R: World, E: Write> {
    keeper: Keeper<'k, 't, R, E, BestShelf<'s, 'a, R>>,
    files: &'s BestFiles<'a, R>,
    keeps: bool,
    /// Whether the search was asked to end.
    is_over: bool,
}

impl<'k, 't, 's, 'a, R: World, E: Write> Drop for BestKeeper<'k, 't, 's, 'a, R, E> {
    fn drop(self) {
        let BestKeeper {
            keeper: _,
            files: _,
            keeps: _,
            is_over: _,
        } = self;
    }
}

impl<'k, 't, 's, 'a, R: World, E: Write> BestKeeper<'k, 't, 's, 'a, R, E> {
    /// Returns a watch that keeps answers on the way if `keeps` is true.
    pub fn new(
        keeper: Keeper<'k, 't, R, E, BestShelf<'s, 'a, R>>,
        files: &'s BestFiles<'a, R>,
        keeps: bool,
    ) -> Self {
        BestKeeper {
            keeper,
            files,
            keeps,
            is_over: false,
        }
    }
}

impl<'k, 't, 's, 'a, R: World, E: Write> Watch for BestKeeper<'k, 't, 's, 'a, R, E> {
    ghost use Rattle.std.specs.Prelude.{◌≡◌, true};

    ghost has_ended = { λ k. k.is_over ≡ true };

    fn see(&mut self, progress: Progress, best: &[Entry]) {
        self.keeper.see(progress, best);
    }

    fn is_over(&mut self) -> bool {
        if self.keeper.is_over() {
            self.is_over = true;
        }
        self.is_over
    }

    fn is_asking(&mut self, bound: u64) -> bool {
        self.keeper.is_asking(bound)
    }

    fn take(&mut self, bound: u64, proofs: &[Vec<u8>]) {
        self.keeper.take(bound, proofs);
    }
}

impl<'k, 't, 's, 'a, R: World, E: Write> WatchBest for BestKeeper<'k, 't, 's, 'a, R, E> {
    fn see_round(&mut self, round: u64, most: u64) {
        self.keeper.show_round(round, most);
    }

    fn is_keeping(&mut self) -> bool {
        self.keeps && self.keeper.is_due()
    }

    /// Writes all files of the answer. A failure has no effect: the last answer is written at the end.
    fn keep(&mut self, answer: &BestAnswer) {
        let _ = self.files.put(answer);
        self.keeper.rest();
    }
}
