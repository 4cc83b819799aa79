//! Lists of lists of numbers.

use crate::grid::put;
use std::alloc::{AllocError, Global};

/// A list of lists of numbers, one behind the other.
#[derive(Drop)]
pub struct Rows {
    /// The index at which each list ends.
    ends: Vec<usize>,
    items: Vec<u32>,
}

impl Rows {
    /// Returns a list of no lists.
    pub fn new(alloc: Global) -> Rows {
        Rows {
            ends: Vec::new(alloc),
            items: Vec::new(alloc),
        }
    }

    /// Adds a number to the list that isn't ended yet.
    pub fn push(&mut self, item: u32) -> Result<(), AllocError> {
        self.items.push(item)?;
        Ok(())
    }

    /// Ends a list.
    pub fn end_row(&mut self) -> Result<(), AllocError> {
        let end = self.items.len();
        self.ends.push(end)?;
        Ok(())
    }

    /// Adds a list.
    pub fn push_row(&mut self, items: &[u32]) -> Result<(), AllocError> {
        for item in items {
            self.push(*item)?;
        }
        self.end_row()
    }

    /// Returns the positions of each key below `count` among the keys.
    pub fn positions(alloc: Global, keys: &[u32], count: usize) -> Result<Rows, AllocError> {
        let mut places = vec![in alloc; 0usize; count]?;
        for key in keys {
            let seen = places.get(*key as usize).copied().unwrap_or(0);
            put(&mut places, *key as usize, seen.saturating_add(1));
        }
        let mut ends = Vec::new(alloc);
        let mut end: usize = 0;
        for place in places.iter_mut() {
            let begin = end;
            end = end.saturating_add(*place);
            *place = begin;
            ends.push(end)?;
        }
        let mut items = vec![in alloc; 0u32; keys.len()]?;
        let mut position: u32 = 0;
        for key in keys {
            let place = places.get(*key as usize).copied().unwrap_or(0);
            put(&mut items, place, position);
            put(&mut places, *key as usize, place.saturating_add(1));
            position = position.saturating_add(1);
        }
        Ok(Rows { ends, items })
    }

    /// Returns a list; the empty one if there is no such list.
    pub fn row(&self, row: usize) -> &[u32] {
        let end = self.ends.get(row).copied().unwrap_or(0);
        let begin = match row.checked_sub(1) {
            Some(before) => self.ends.get(before).copied().unwrap_or(0),
            None => 0,
        };
        self.items.get(begin..end).unwrap_or(&[])
    }
}
