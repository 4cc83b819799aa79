//! Where the proofs of a search are stored on the way.

use std::alloc::AllocError;
use tt_cli_files::Batch;

/// The files next to the timetable of a search.
pub trait Shelf {
    /// Writes the texts of proofs to their files, and returns whether they are there.
    fn put_proofs(&mut self, proofs: &[Vec<u8>]) -> Result<bool, AllocError>;

    /// Adds the files that an earlier run left next to the timetable to a batch that writes it.
    fn clear(&mut self, batch: Batch) -> Result<Batch, AllocError>;
}

/// No place for proofs.
#[derive(Clone, Copy, Debug)]
pub struct NoShelf;

impl Shelf for NoShelf {
    fn put_proofs(&mut self, _proofs: &[Vec<u8>]) -> Result<bool, AllocError> {
        Ok(false)
    }

    fn clear(&mut self, batch: Batch) -> Result<Batch, AllocError> {
        Ok(batch)
    }
}
