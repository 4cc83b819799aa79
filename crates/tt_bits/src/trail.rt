//! A table of numbers whose writes are logged, so that they can be undone.

ghost use Rattle.std.specs.Prelude.{◌≡◌, ◌<◌, [], ◌∷◌, ◌++◌, length, slice_index_or, slice_set, OnOk, OnErr};

use std::alloc::{AllocError, Global};
use std::marker::Model;

/// The number at a place before a write.
#[derive(Clone, Copy)]
struct Old {
    place: usize,
    word: u64,
}

/// A table of numbers with a stack of marked states; the newest can be restored.
#[derive(Drop)]
pub struct Trail {
    words: Vec<u64>,
    log: Vec<Old>,
    marks: Vec<usize>,
}

impl Model for Trail {
    ghost use Rattle.tt_bits.specs.Inner.TrailStates.{TrailStates};

    ghost Value = { TrailStates };

    ghost use Rattle.std.specs.Prelude.{length};
    ghost use Rattle.tt_bits.specs.Inner.Undone.{tables_at, IsClimb, AreWithin};

    ghost view = { λ t. record {
      words = t.words.items;
      earlier = tables_at t.words.items t.log.items t.marks.items;
    } };

    ghost invariant = { λ t. record {
      marks : IsClimb t.marks.items (length t.log.items);
      places : AreWithin (length t.words.items) t.log.items;
    } };
}

impl Trail {
    /// Creates a table with no marks.
    pub fn new(alloc: Global, words: Vec<u64>) -> Trail
        ensures words { result.words ≡ words.items }
        ensures earlier { result.earlier ≡ [] }
    {
        Trail {
            words,
            log: Vec::new(alloc),
            marks: Vec::new(alloc),
        }
    }

    /// Returns how many numbers the table has.
    pub fn len(&self) -> usize
        ensures { result ≡ length self.now.words }
    {
        self.words.len()
    }

    /// Returns the number at a place.
    pub fn word(&self, place: usize) -> u64
        requires { place < length self.now.words }
        ensures { result ≡ slice_index_or self.now.words place 0 }
    {
        self.words[place]
    }

    /// Marks the current state of the table.
    pub fn mark(&mut self) -> Result<(), AllocError>
        ensures ok { OnOk result (self.new.earlier ≡ self.old.earlier ++ self.old.words ∷ []) }
        ensures err { OnErr result (self.new.earlier ≡ self.old.earlier) }
        ensures unchanged { self.new.words ≡ self.old.words }
    {
        let len = self.log.len();
        self.marks.push(len)?;
        Ok(())
    }

    /// Writes a number at a place. The old number is logged only if there is a mark to return to.
    pub fn set(&mut self, place: usize, word: u64) -> Result<(), AllocError>
        requires { place < length self.old.words }
        ensures ok { OnOk result (self.new.words ≡ slice_set self.old.words place word) }
        ensures err { OnErr result (self.new.words ≡ self.old.words) }
        ensures unchanged { self.new.earlier ≡ self.old.earlier }
    {
        if self.marks.is_empty() {
            self.words[place] = word;
            return Ok(());
        }
        let old = Old {
            place,
            word: self.words[place],
        };
        self.log.push(old)?;
        self.words[place] = word;
        Ok(())
    }

    /// Restores the table to the newest mark, and removes that mark.
    #[inline(always)]
    pub fn undo(&mut self)
        requires { 0 < length self.old.earlier }
        ensures { self.old.earlier ≡ self.new.earlier ++ self.new.words ∷ [] }
    {
        let mark = self.marks.pop().unwrap();
        while self.log.len() > mark {
            let old = self.log.pop().unwrap();
            self.words[old.place] = old.word;
        }
    }
}
