//! Marks of numbers.

ghost use Rattle.std.specs.Int.{div_ceil};
ghost use Rattle.std.specs.Prelude.{◌≡◌, ◌<◌, ◌≤◌, ◌/◌, ◌%◌, ℕ, true, false, [], ◌==◌, ◌&&◌, ◌||◌, length, replicate, slice_index_or, slice_set, IfOk};
ghost use Rattle.tt_bits.specs.Inner.Bits.{has_bit};

use std::alloc::{AllocError, Global};
use std::marker::Model;
use tt_bits::{either, has_bit, one, without};

/// The numbers of a word.
const BITS: usize = 64;

/// For each number below a length, whether it is marked: a bit of a word.
#[derive(Drop)]
pub struct Marks {
    words: Vec<u64>,
    len: usize,
}

impl Model for Marks {
    ghost use Rattle.std.specs.Prelude.{List, Bool, ◌≡◌, length};
    ghost use Rattle.std.specs.Int.{div_ceil};
    ghost use Rattle.tt_instance.specs.Inner.Flags.{flags_in};

    ghost Value = { List Bool };

    ghost view = { λ a. flags_in a.words.items a.len };

    ghost invariant = { λ a. length a.words.items ≡ div_ceil a.len 64 };
}

/// Adds to each word the bits of the other word at its place.
fn add_words(words: &mut Vec<u64>, others: &[u64])
    requires { length words.old.items ≤ length others.now }
    ensures len { length words.new.items ≡ length words.old.items }
    ensures bits { (i r : ℕ) → i < length words.old.items → r < 64 → has_bit (slice_index_or words.new.items i 0) r
        ≡ (has_bit (slice_index_or words.old.items i 0) r || has_bit (slice_index_or others.now i 0) r) }
{
    for place in 0..words.len() {
        words[place] = either(words[place], others[place]);
    }
}

impl Marks {
    /// Creates marks for the numbers below the length, none of them set.
    pub fn new(alloc: Global, len: usize) -> Result<Marks, AllocError>
        ensures { IfOk result (λ m. m ≡ replicate len false) }
    {
        let words = Vec::from_elem(alloc, 0, len.div_ceil(BITS))?;
        Ok(Marks { words, len })
    }

    /// Returns whether a number is marked; false from the length on.
    #[tactic(auto, using(crate::proofs::Flagging::flag_at, crate::proofs::Flagging::flag_past, crate::proofs::Flagging::word_there))]
    pub fn has(&self, number: usize) -> bool
        ensures { result ≡ slice_index_or self.now number false }
    {
        number < self.len && has_bit(self.words[number / BITS], (number % BITS) as u32)
    }

    /// Returns the marks as words: number k is the bit k % 64 of the word k / 64.
    #[tactic(auto, using(crate::proofs::Flagging::flag_at, crate::proofs::Flagging::flags_length))]
    pub fn words(&self) -> &[u64]
        ensures len { length result.now ≡ div_ceil (length self.now) 64 }
        ensures bits { (k : ℕ) → k < length self.now → has_bit (slice_index_or result.now (k / 64) 0) (k % 64) ≡ slice_index_or self.now k false }
    {
        &self.words
    }

    /// Marks a number.
    #[tactic(auto, using(crate::proofs::Flagging::flags_length, crate::proofs::Flagging::word_there))]
    pub fn mark(&mut self, number: usize)
        requires { number < length self.old }
        ensures { self.new ≡ slice_set self.old number true }
    {
        let word = &mut self.words[number / BITS];
        *word = either(*word, one((number % BITS) as u32));
    }

    /// Marks a number if `is_in` is true.
    pub fn mark_if(&mut self, number: usize, is_in: bool)
        requires { number < length self.old }
        ensures len { length self.new ≡ length self.old }
        ensures marked { (k : ℕ) → slice_index_or self.new k false ≡ (slice_index_or self.old k false || (is_in && (k == number))) }
    {
        if is_in {
            self.mark(number);
        }
    }

    /// Removes a mark.
    #[tactic(auto, using(crate::proofs::Flagging::flags_length, crate::proofs::Flagging::word_there))]
    pub fn clear(&mut self, number: usize)
        requires { number < length self.old }
        ensures { self.new ≡ slice_set self.old number false }
    {
        let word = &mut self.words[number / BITS];
        *word = without(*word, one((number % BITS) as u32));
    }

    /// Marks the numbers that are marked in other marks of the same length, a word at a time.
    #[tactic(auto, using(crate::proofs::Flagging::flags_length))]
    pub fn mark_all(&mut self, other: &Marks)
        requires { length other.now ≡ length self.old }
        ensures len { length self.new ≡ length self.old }
        ensures marked { (k : ℕ) → slice_index_or self.new k false
            ≡ (slice_index_or self.old k false || slice_index_or other.now k false) }
    {
        add_words(&mut self.words, &other.words);
    }
}

/// Returns whether a number is marked in a row of a table; false if the row is out of range.
pub fn has_at(rows: &[Marks], row: usize, number: usize) -> bool
    ensures { result ≡ slice_index_or (slice_index_or rows.now row []) number false }
{
    rows.get(row).is_some_and(|marks| marks.has(number))
}
