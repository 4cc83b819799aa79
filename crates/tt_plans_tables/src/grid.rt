//! Tables of rows of one length.

use std::alloc::{AllocError, Global};

/// Puts an item in a place. Nothing is written if there is no such place.
pub fn put<T: Copy + Drop>(items: &mut Vec<T>, index: usize, item: T) {
    if let Some(place) = items.get_mut(index) {
        *place = item;
    }
}

/// A table of numbers.
#[derive(Drop)]
pub struct Counts {
    width: usize,
    items: Vec<i32>,
}

/// A table of words of 64 bits.
#[derive(Drop)]
pub struct Words {
    width: usize,
    items: Vec<u64>,
}

impl Counts {
    /// Makes a table with this number in each place. Fails if memory runs out.
    pub fn new(
        alloc: Global,
        rows: usize,
        width: usize,
        number: i32,
    ) -> Result<Counts, AllocError> {
        Ok(Counts {
            width,
            items: vec![in alloc; number; rows.saturating_mul(width)]?,
        })
    }

    fn index(&self, row: usize, column: usize) -> usize {
        row.wrapping_mul(self.width).wrapping_add(column)
    }

    /// Returns a number; 0 outside of the table.
    pub fn get(&self, row: usize, column: usize) -> i32 {
        self.items
            .get(self.index(row, column))
            .copied()
            .unwrap_or(0)
    }

    /// Puts a number in a place.
    pub fn put(&mut self, row: usize, column: usize, number: i32) {
        let index = self.index(row, column);
        put(&mut self.items, index, number);
    }

    /// Adds to a number, and returns the sum.
    pub fn add(&mut self, row: usize, column: usize, more: i32) -> i32 {
        let index = self.index(row, column);
        if let Some(place) = self.items.get_mut(index) {
            *place = place.wrapping_add(more);
            return *place;
        }
        0
    }

    /// Returns a row.
    pub fn row(&self, row: usize) -> &[i32] {
        let begin = row.wrapping_mul(self.width);
        self.items
            .get(begin..begin.wrapping_add(self.width))
            .unwrap_or(&[])
    }

    /// Puts this number in each place.
    pub fn fill(&mut self, number: i32) {
        self.items.fill(number);
    }
}

impl Words {
    /// Makes a table of zeros. Fails if memory runs out.
    pub fn new(alloc: Global, rows: usize, width: usize) -> Result<Words, AllocError> {
        Ok(Words {
            width,
            items: vec![in alloc; 0u64; rows.saturating_mul(width)]?,
        })
    }

    fn index(&self, row: usize, column: usize) -> usize {
        row.wrapping_mul(self.width).wrapping_add(column)
    }

    /// Returns a word; 0 outside of the table.
    pub fn get(&self, row: usize, column: usize) -> u64 {
        self.items
            .get(self.index(row, column))
            .copied()
            .unwrap_or(0)
    }

    /// Turns the bits of a word that are in `bits`.
    pub fn turn(&mut self, row: usize, column: usize, bits: u64) {
        let index = self.index(row, column);
        if let Some(place) = self.items.get_mut(index) {
            *place ^= bits;
        }
    }

    /// Returns a row.
    pub fn row(&self, row: usize) -> &[u64] {
        let begin = row.wrapping_mul(self.width);
        self.items
            .get(begin..begin.wrapping_add(self.width))
            .unwrap_or(&[])
    }

    /// Puts 0 in each place.
    pub fn clear(&mut self) {
        self.items.fill(0);
    }
}
