//! The file of the proof of a tree.

use std::alloc::AllocError;
use tt_cli_files::{Batch, Ready};
use tt_cli_progress::World;
use tt_cli_saving::{Prepared, Shelf, with_wishes_line};

/// The file of the proof of a tree.
pub struct TreeFile<F> {
    pub file: Prepared<F>,
    /// Whether the proof holds of the timetables that keep wishes.
    pub is_under_wishes: bool,
}

impl<F: Drop> Drop for TreeFile<F> {
    fn drop(self) {
        let TreeFile {
            file: _,
            is_under_wishes: _,
        } = self;
    }
}

impl<F> TreeFile<F> {
    /// Adds a proof that holds under wishes to a batch. The first line of its file says so.
    fn write_wished<R: World<File = F>>(
        &mut self,
        rt: &R,
        batch: Batch,
        proof: &[u8],
    ) -> Result<Batch, AllocError> {
        match with_wishes_line(rt.alloc(), proof) {
            Ok(text) => self.file.write(rt, batch, &text),
            Err(fault) => {
                batch.abandon(rt);
                Err(fault)
            }
        }
    }

    /// Adds a proof to a batch.
    pub fn write<R: World<File = F>>(
        &mut self,
        rt: &R,
        batch: Batch,
        proof: &[u8],
    ) -> Result<Batch, AllocError> {
        if self.is_under_wishes {
            self.write_wished(rt, batch, proof)
        } else {
            self.file.write(rt, batch, proof)
        }
    }
}

/// The file in which the proof of a tree is stored on the way.
pub struct TreeShelf<'s, R: World> {
    pub rt: &'s R,
    pub tree: &'s mut TreeFile<R::File>,
}

impl<'s, R: World> Drop for TreeShelf<'s, R> {
    fn drop(self) {
        let TreeShelf { rt: _, tree: _ } = self;
    }
}

impl<'s, R: World> Shelf for TreeShelf<'s, R> {
    fn put_proofs(&mut self, proofs: &[Vec<u8>]) -> Result<bool, AllocError> {
        if !matches!(self.tree.file.ready, Ready::Place(_)) {
            return Ok(false);
        }
        let mut batch = Batch::new(self.rt.alloc());
        for proof in proofs {
            batch = self.tree.write(self.rt, batch, proof)?;
        }
        Ok(batch.put_or_remove(self.rt))
    }

    fn clear(&mut self, batch: Batch) -> Result<Batch, AllocError> {
        Ok(batch)
    }
}
