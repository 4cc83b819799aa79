//! Watches a search: shows its progress, ends it in time, and keeps what it has found.

ghost use Rattle.std.specs.Prelude.{◌≡◌, ◌⊎◌, IsTrue, Some};
ghost use Rattle.tt_cli_saving.specs.Inner.Keeping.{MayReplace};

use crate::shelf::Shelf;
use crate::targets::Prepared;
use std::alloc::{AllocError, Global};
use std::io::Write;
use std::rt::Files;
use tt_cli_files::{Batch, Ready};
use tt_cli_progress::{Pace, Ticker, TimeLimit, World};
use tt_instance::Instance;
use tt_table::{Entry, Timetable, write_solution};
use tt_watch::{Pair, Progress, Watch};

/// The file in which the best timetable of a search is stored.
pub struct KeptTable<'k, F> {
    out: &'k mut Prepared<F>,
    instance: Instance<'k>,
    /// Whether only a timetable that breaks no hard rule is stored.
    is_strict: bool,
    kept: Option<Pair>,
}

impl<'k, F> Drop for KeptTable<'k, F> {
    fn drop(self) {
        let KeptTable {
            out: _,
            instance: _,
            is_strict: _,
            kept: _,
        } = self;
    }
}

/// Returns the text of a timetable with these entries; `None` if they are no timetable of the instance, or memory runs out.
fn text_of(alloc: Global, instance: &Instance<'_>, entries: &[Entry]) -> Option<Vec<u8>> {
    let mut table = Timetable::new(alloc);
    for entry in entries {
        table.push(*entry).ok()?;
    }
    if !table.fits(instance) {
        return None;
    }
    write_solution(alloc, instance, &table).ok()
}

impl<'k, F> KeptTable<'k, F> {
    /// Returns a file in which nothing is stored yet.
    pub fn new(
        out: &'k mut Prepared<F>,
        instance: Instance<'k>,
        is_strict: bool,
    ) -> KeptTable<'k, F> {
        KeptTable {
            out,
            instance,
            is_strict,
            kept: None,
        }
    }

    /// Checks whether a timetable is better than the one that is stored, and is to be stored.
    fn is_wanted(&self, pair: Pair) -> bool
        ensures { IsTrue result → MayReplace self.now.is_strict self.now.kept pair }
    {
        let is_better = match self.kept {
            Some(kept) => pair.is_below(kept),
            None => true,
        };
        is_better
            && (!self.is_strict || pair.hard == 0)
            && matches!(self.out.ready, Ready::Place(_))
    }

    /// Writes a better timetable to its file, and remembers it if it is there.
    fn replace<R: World<File = F>, S: Shelf>(
        &mut self,
        rt: &R,
        shelf: &mut S,
        pair: Pair,
        entries: &[Entry],
    ) -> Result<(), AllocError>
        requires { MayReplace self.old.is_strict self.old.kept pair }
        ensures { (self.new.kept ≡ self.old.kept) ⊎ (self.new.kept ≡ Some pair) }
    {
        let Some(text) = text_of(rt.alloc(), &self.instance, entries) else {
            return Ok(());
        };
        let batch = self.out.write(rt, Batch::new(rt.alloc()), &text)?;
        if shelf.clear(batch)?.put_or_remove(rt) {
            self.kept = Some(pair);
        }
        Ok(())
    }
}

/// Shows a search, ends it in time, and keeps its best timetable and its proofs, if there are places for them.
pub struct Keeper<'k, 't, R: World, E: Write, S: Shelf> {
    rt: &'k R,
    ticker: &'k mut Ticker<'t, R, E>,
    limit: TimeLimit,
    table: Option<KeptTable<'k, <R as Files>::File>>,
    shelf: S,
    /// Whether proofs are stored.
    keeps_proofs: bool,
    pace: Pace,
    bound: Option<u64>,
}

impl<'k, 't, R: World, E: Write, S: Shelf + Drop> Drop for Keeper<'k, 't, R, E, S> {
    fn drop(self) {
        let Keeper {
            rt: _,
            ticker: _,
            limit: _,
            table,
            shelf: _,
            keeps_proofs: _,
            pace: _,
            bound: _,
        } = self;
        drop(table);
    }
}

impl<'k, 't, R: World, E: Write, S: Shelf> Keeper<'k, 't, R, E, S> {
    /// Watches a search that begins now, within this many seconds, if a number is given.
    pub fn new(
        rt: &'k R,
        ticker: &'k mut Ticker<'t, R, E>,
        seconds: Option<u64>,
        table: Option<KeptTable<'k, <R as Files>::File>>,
        shelf: S,
        keeps_proofs: bool,
    ) -> Keeper<'k, 't, R, E, S> {
        Keeper {
            rt,
            ticker,
            limit: TimeLimit::new(rt, seconds),
            table,
            shelf,
            keeps_proofs,
            pace: Pace::new(rt),
            bound: None,
        }
    }

    /// Shows rounds from now on.
    pub fn show_round(&mut self, number: u64, most: u64) {
        self.ticker.show_round(number, most);
    }

    /// Checks whether it is time to keep something.
    pub fn is_due(&mut self) -> bool {
        self.pace.is_due(self.rt)
    }

    /// Begins the pause after something was stored.
    pub fn rest(&mut self) {
        self.pace.rest(self.rt);
    }

    /// Stores a timetable, if it is better than the one that is stored. A failure to write it has no effect: the last one is written at the end.
    fn keep_table(&mut self, pair: Pair, entries: &[Entry]) {
        let Some(table) = &mut self.table else {
            return;
        };
        if !table.is_wanted(pair) || !self.pace.is_due(self.rt) {
            return;
        }
        let _ = table.replace(self.rt, &mut self.shelf, pair, entries);
        self.pace.rest(self.rt);
    }
}

impl<'k, 't, R: World, E: Write, S: Shelf> Watch for Keeper<'k, 't, R, E, S> {
    ghost use Rattle.std.specs.Prelude.{◌≡◌, true};

    ghost has_ended = { λ k. k.limit.is_over ≡ true };

    fn see(&mut self, progress: Progress, best: &[Entry]) {
        self.ticker.show(progress);
        if let Some(pair) = progress.best {
            self.keep_table(pair, best);
        }
    }

    fn is_over(&mut self) -> bool {
        self.limit.has_come(self.rt)
    }

    fn is_asking(&mut self, bound: u64) -> bool {
        self.keeps_proofs
            && self.bound.is_none_or(|known| known < bound)
            && self.pace.is_due(self.rt)
    }

    fn take(&mut self, bound: u64, proofs: &[Vec<u8>]) {
        if let Ok(true) = self.shelf.put_proofs(proofs) {
            self.bound = Some(bound);
        }
        self.pace.rest(self.rt);
    }
}
