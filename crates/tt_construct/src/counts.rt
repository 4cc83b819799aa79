//! Tables of counts on which choices are based. Nothing is proved about their contents.

use std::alloc::{AllocError, Global};

/// Counts by row and column. A count outside the table is 0, and remains 0.
#[derive(Drop)]
pub struct Counts {
    columns: usize,
    counts: Vec<u16>,
}

impl Counts {
    /// Returns a table in which all counts are 0.
    pub fn new(alloc: Global, rows: u32, columns: u32) -> Result<Counts, AllocError> {
        let (rows, columns) = (rows as usize, columns as usize);
        Ok(Counts {
            columns,
            counts: vec![in alloc; 0u16; rows * columns]?,
        })
    }

    fn index(&self, row: u32, column: u32) -> usize {
        (row as usize)
            .wrapping_mul(self.columns)
            .wrapping_add(column as usize)
    }

    /// Returns the count at a row and a column.
    pub fn get(&self, row: u32, column: u32) -> u16 {
        let index = self.index(row, column);
        self.counts.get(index).copied().unwrap_or(0)
    }

    /// Adds 1 at a row and a column. Returns whether the count was 0.
    pub fn add(&mut self, row: u32, column: u32) -> bool {
        let index = self.index(row, column);
        let Some(count) = self.counts.get_mut(index) else {
            return false;
        };
        let was_none = *count == 0;
        *count = count.saturating_add(1);
        was_none
    }
}
