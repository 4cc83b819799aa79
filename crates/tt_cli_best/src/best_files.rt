//! The files of `best`.

use std::alloc::AllocError;
use std::cell::Cell;
use tt_call_searches::BestAnswer;
use tt_cli_files::{Batch, Role};
use tt_cli_progress::World;
use tt_cli_saving::{Folder, FolderFile, GROUPS, PRICES, Prepared, ProofFolder, Shelf};

/// The file of the best timetable.
pub const TABLE: FolderFile = FolderFile {
    role: Role::Solution,
    name: "best.sol",
};

/// The file of a timetable that breaks hard rules, if no other was found.
pub const PARTIAL: FolderFile = FolderFile {
    role: Role::Solution,
    name: "partial.sol",
};

/// The page that shows the timetable.
pub const PAGE: FolderFile = FolderFile {
    role: Role::Page,
    name: "page.html",
};

/// The tree proof.
pub const TREE: FolderFile = FolderFile {
    role: Role::Proof,
    name: "tree.proof",
};

/// The files of `best` in its folder, and which of them are this run's.
pub struct BestFiles<'a, R: World> {
    pub rt: &'a R,
    pub folder: Folder<'a>,
    /// Whether the proofs hold of the timetables that keep wishes.
    pub is_under_wishes: bool,
    /// Whether the timetable in the folder is this run's.
    pub has_table: Cell<bool>,
    /// Whether the proofs in the folder are this run's.
    pub has_proofs: Cell<bool>,
}

impl<'a, R: World> Drop for BestFiles<'a, R> {
    fn drop(self) {
        let BestFiles {
            rt: _,
            folder: _,
            is_under_wishes: _,
            has_table: _,
            has_proofs: _,
        } = self;
    }
}

impl<'a, R: World> BestFiles<'a, R> {
    fn proofs(&self) -> ProofFolder<'a> {
        ProofFolder {
            folder: self.folder,
            tree: TREE,
            is_under_wishes: self.is_under_wishes,
        }
    }

    /// Adds the page of an answer to a batch, or the page that another run or an earlier step left, if the answer has none.
    fn write_page(&self, batch: Batch, page: &Option<Vec<u8>>) -> Result<Batch, AllocError> {
        match page {
            Some(text) => self.folder.write(self.rt, batch, PAGE, text),
            None => self.folder.retire(self.rt, batch, PAGE),
        }
    }

    /// Adds a timetable that breaks hard rules to a batch, or the one that another run or an earlier step left, if the answer has none.
    fn write_partial(&self, batch: Batch, partial: &Option<Vec<u8>>) -> Result<Batch, AllocError> {
        match partial {
            Some(text) => self.folder.write(self.rt, batch, PARTIAL, text),
            None => self.folder.retire(self.rt, batch, PARTIAL),
        }
    }

    /// Adds all files of an answer to a batch, except that of the best timetable.
    fn write_others(&self, batch: Batch, answer: &BestAnswer) -> Result<Batch, AllocError> {
        let batch = self.write_partial(batch, &answer.partial)?;
        let batch = self.write_page(batch, &answer.page)?;
        self.proofs().write(self.rt, batch, &answer.proofs)
    }

    /// Adds all files of an answer to a batch; a timetable or a page that another run left gets another name if the answer has none.
    pub fn write(
        &self,
        batch: Batch,
        answer: &BestAnswer,
        table: &mut Prepared<R::File>,
    ) -> Result<Batch, AllocError> {
        let batch = match &answer.table {
            Some(text) => table.write(self.rt, batch, text)?,
            None => self.folder.retire(self.rt, batch, TABLE)?,
        };
        self.write_others(batch, answer)
    }

    /// Checks whether all files can be written more than once.
    fn can_keep(&self) -> Result<bool, AllocError> {
        let proofs = self.proofs().can_keep(self.rt)?;
        let tables = self.folder.can_keep(self.rt, TABLE)?
            && self.folder.can_keep(self.rt, PARTIAL)?;
        Ok(proofs && tables && self.folder.can_keep(self.rt, PAGE)?)
    }

    /// Writes all files of an answer on the way.
    pub fn put(&self, answer: &BestAnswer) -> Result<(), AllocError> {
        if !self.can_keep()? {
            return Ok(());
        }
        let batch = Batch::new(self.rt.alloc());
        let batch = match &answer.table {
            Some(text) => self.folder.write(self.rt, batch, TABLE, text)?,
            None => batch,
        };
        if self.write_others(batch, answer)?.put_or_remove(self.rt) {
            self.has_table.set(answer.table.is_some());
            self.has_proofs.set(true);
        }
        Ok(())
    }

    /// Writes proofs, and gives other names to a timetable and a page of an earlier run.
    fn put_proofs(&self, proofs: &[Vec<u8>]) -> Result<bool, AllocError> {
        if !self.proofs().can_keep(self.rt)? {
            return Ok(false);
        }
        let mut batch = Batch::new(self.rt.alloc());
        batch = self.proofs().write(self.rt, batch, proofs)?;
        if !self.has_table.get() {
            batch = self.folder.retire(self.rt, batch, TABLE)?;
            batch = self.folder.retire(self.rt, batch, PAGE)?;
        }
        let is_put = batch.put_or_remove(self.rt);
        if is_put {
            self.has_proofs.set(true);
        }
        Ok(is_put)
    }

    /// Adds the page and the proofs of an earlier run to a batch that writes the timetable, so that they get other names.
    fn clear(&self, mut batch: Batch) -> Result<Batch, AllocError> {
        if !self.has_table.get() {
            batch = self.folder.retire(self.rt, batch, PAGE)?;
            self.has_table.set(true);
        }
        if !self.has_proofs.get() {
            for file in [GROUPS, PRICES, TREE] {
                batch = self.folder.retire(self.rt, batch, file)?;
            }
            self.has_proofs.set(true);
        }
        Ok(batch)
    }
}

/// The files of `best` as the shelf of a search.
pub struct BestShelf<'s, 'a, R: World> {
    pub files: &'s BestFiles<'a, R>,
}

impl<'s, 'a, R: World> Drop for BestShelf<'s, 'a, R> {
    fn drop(self) {
        let BestShelf { files: _ } = self;
    }
}

impl<'s, 'a, R: World> Shelf for BestShelf<'s, 'a, R> {
    fn put_proofs(&mut self, proofs: &[Vec<u8>]) -> Result<bool, AllocError> {
        self.files.put_proofs(proofs)
    }

    fn clear(&mut self, batch: Batch) -> Result<Batch, AllocError> {
        self.files.clear(batch)
    }
}
