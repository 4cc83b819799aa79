//! Counts that are packed into a word.

use std::alloc::{AllocError, Global};

/// The bits of a packed word.
const WORD: u32 = 64;

/// A count in a packed word: its lowest bit, the mask of its bits, its highest bit, which no count has, and the most that it may be.
#[derive(Clone, Copy, Debug)]
pub struct Field {
    shift: u32,
    mask: u64,
    guard: u64,
    pub most: u64,
}

impl Field {
    /// Returns a word in which the count is 1.
    pub fn unit(&self) -> u64 {
        1 << (self.shift % WORD)
    }

    /// Returns the count in a word.
    pub fn count(&self, packed: u64) -> u64 {
        (packed >> (self.shift % WORD)) & self.mask
    }

    /// Returns a word in which the count is this number, if it may be that much.
    pub fn of(&self, count: u64) -> u64 {
        count.min(self.most).wrapping_mul(self.unit())
    }
}

/// Counts in a packed word, and the number by which some of them were above their caps.
#[derive(Clone, Copy, Debug)]
pub struct Sum {
    pub packed: u64,
    pub beyond: u64,
}

/// The counts of a packed word. A count never passes its limit, or it stays at the limit and the further lectures are paid for.
#[derive(Debug, Drop)]
pub struct Fields {
    fields: Vec<Field>,
    capped: Vec<Field>,
    full: u64,
    guards: u64,
    strict: u64,
    taken: u32,
}

impl Fields {
    /// Returns no counts.
    pub fn new(alloc: Global) -> Fields {
        Fields {
            fields: Vec::new(alloc),
            capped: Vec::new(alloc),
            full: 0,
            guards: 0,
            strict: 0,
            taken: 0,
        }
    }

    /// Adds a count that may be this much. Returns `None` if the word has no bits for it.
    pub fn add(&mut self, most: u32, is_capped: bool) -> Result<Option<Field>, AllocError> {
        let bits = u32::BITS - most.leading_zeros();
        let shift = self.taken;
        let next = shift.saturating_add(bits).saturating_add(1);
        if WORD < next {
            return Ok(None);
        }
        let field = Field {
            shift,
            mask: (2u64 << (bits % WORD)).wrapping_sub(1),
            guard: 1 << (next.saturating_sub(1) % WORD),
            most: u64::from(most),
        };
        self.taken = next;
        self.full |= u64::from(most) << (shift % WORD);
        self.guards |= field.guard;
        self.fields.push(field)?;
        if is_capped {
            self.capped.push(field)?;
        } else {
            self.strict |= field.guard;
        }
        Ok(Some(field))
    }

    /// Returns a word with the counts that are capped lowered to their caps.
    fn cap(&self, packed: u64) -> Sum {
        let mut sum = Sum { packed, beyond: 0 };
        for field in &self.capped {
            let more = field.count(packed).saturating_sub(field.most);
            sum.packed = sum.packed.wrapping_sub(more.wrapping_mul(field.unit()));
            sum.beyond = sum.beyond.saturating_add(more);
        }
        sum
    }

    /// Returns the sum of two words, or `None` if a count is above what it may be.
    pub fn sum(&self, first: u64, second: u64) -> Option<Sum> {
        let packed = first.wrapping_add(second);
        let over = !(self.full | self.guards).wrapping_sub(packed) & self.guards;
        if over == 0 {
            return Some(Sum { packed, beyond: 0 });
        }
        if over & self.strict != 0 {
            return None;
        }
        Some(self.cap(packed))
    }

    /// Returns the word in which each count is the greater one.
    pub fn greater(&self, first: u64, second: u64) -> u64 {
        let mut word = 0;
        for field in &self.fields {
            word |= field.of(field.count(first).max(field.count(second)));
        }
        word
    }

    /// Returns the word in which each count is lower by that of another word, and the counts that are capped are 0.
    pub fn less(&self, first: u64, second: u64) -> u64 {
        let mut word = 0;
        for field in &self.fields {
            if field.guard & self.strict != 0 {
                word |= field.of(field.count(first).saturating_sub(field.count(second)));
            }
        }
        word
    }

    /// Returns the word in which each count is all that it may be.
    pub fn full(&self) -> u64 {
        self.full
    }

    /// Checks whether no count that isn't capped is below that of another word.
    pub fn reaches(&self, packed: u64, least: u64) -> bool {
        (packed | self.guards).wrapping_sub(least) & self.strict == self.strict
    }
}
