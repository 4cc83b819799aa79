//! Single tokens of a proof.

ghost use Rattle.std.specs.Prelude.{◌≡◌, ◌≤◌, ◌<◌, None, IfOk};
ghost use Rattle.tt_text.specs.Feeds.{room_of};
ghost use Rattle.tt_text.specs.Numbers.{number_of};
ghost use Rattle.tt_proof_read.specs.Inner.Contract.{ReadsAs, ReadsPast};
ghost use Rattle.tt_proof_read.specs.Faults.{ReportsNoFailedRead, ReportsNoOutOfMemory, Gives};
ghost use Rattle.tt_proof_read.specs.Reading.{token_at, word_at, numbered_below, index_of, course_at, curriculum_at, priced_as, price_at};

use crate::fault::{TextFault, Word};
use crate::format::{COURSE_LETTER, CURRICULUM_LETTER, MAX_INDEX, MAX_PRICE};
use crate::sizes::Sizes;
use tt_text::{Feed, NumberFault, Source, Token, number};

/// Reads the next token.
#[tactic(auto, unfolding(crate::specs::Reading::token_at))]
#[inline(always)]
pub fn token<R: Source>(feed: &mut Feed, source: &mut R) -> Result<usize, TextFault>
    ensures read { ReadsAs R.Source feed.old source.old feed.new source.new (λ at. record { text = feed.new.token; at = at }) result token_at }
    ensures memory { feed.old.fault ≡ None → ReportsNoOutOfMemory result }
    ensures forward { IfOk result (λ _. room_of feed.new < room_of feed.old) }
{
    match feed.next(source) {
        Ok(Some(at)) => Ok(at),
        Ok(None) => match feed.ended() {
            Some(end) => Err(TextFault::Ended(end)),
            None => unreachable!(),
        },
        Err(fault) => Err(TextFault::from(fault)),
    }
}

/// Reads a fixed word.
#[tactic(auto, unfolding(crate::specs::Reading::word_at))]
pub fn read_word<R: Source>(feed: &mut Feed, source: &mut R, word: Word) -> Result<(), TextFault>
    ensures read { ReadsPast R.Source feed.old source.old feed.new source.new result (word_at word) }
    ensures memory { feed.old.fault ≡ None → ReportsNoOutOfMemory result }
{
    let at = token(feed, source)?;
    if word.text() == feed.token() {
        Ok(())
    } else {
        Err(TextFault::Expected(word, at))
    }
}

/// Returns the number after a letter, below a count.
#[tactic(auto, unfolding(crate::specs::Reading::numbered_below))]
#[inline(always)]
pub fn number_below(digits: &[u8], at: usize, count: u32) -> Result<u32, TextFault>
    ensures read { Gives (λ n. n) result (numbered_below at count digits.now) }
    ensures within { IfOk result (λ n. n < count) }
    ensures unread { ReportsNoFailedRead result }
{
    match number(&Token { bytes: digits, at }, MAX_INDEX) {
        Ok(n) => {
            if n < u64::from(count) {
                Ok(n as u32)
            } else {
                Err(TextFault::UnknownIndex(at))
            }
        }
        Err(NumberFault::NotANumber) => Err(TextFault::UnknownWord(at)),
        Err(NumberFault::TooLarge) => Err(TextFault::UnknownIndex(at)),
    }
}

/// Returns the number of a letter and a number below a count, in one token.
#[tactic(auto, unfolding(crate::specs::Reading::index_of))]
#[inline(always)]
pub fn index(text: &[u8], at: usize, letter: u8, count: u32) -> Result<u32, TextFault>
    ensures read { Gives (λ n. n) result (index_of letter count (record { text = text.now; at = at })) }
    ensures within { IfOk result (λ n. n < count) }
    ensures unread { ReportsNoFailedRead result }
{
    match text.split_first() {
        Some((first, digits)) => {
            if *first == letter {
                number_below(digits, at, count)
            } else {
                Err(TextFault::UnknownWord(at))
            }
        }
        None => Err(TextFault::UnknownWord(at)),
    }
}

/// Reads a course.
#[tactic(auto, unfolding(crate::specs::Reading::course_at))]
#[inline(always)]
pub fn read_course<R: Source>(
    feed: &mut Feed,
    source: &mut R,
    sizes: Sizes,
) -> Result<u32, TextFault>
    ensures read { ReadsAs R.Source feed.old source.old feed.new source.new (λ c. c) result (course_at sizes) }
    ensures forward { IfOk result (λ _. room_of feed.new < room_of feed.old) }
    ensures within { IfOk result (λ c. c < sizes.courses) }
{
    let at = token(feed, source)?;
    index(feed.token(), at, COURSE_LETTER, sizes.courses)
}

/// Reads a curriculum.
#[tactic(auto, unfolding(crate::specs::Reading::curriculum_at))]
#[inline(always)]
pub fn read_curriculum<R: Source>(
    feed: &mut Feed,
    source: &mut R,
    sizes: Sizes,
) -> Result<u32, TextFault>
    ensures read { ReadsAs R.Source feed.old source.old feed.new source.new (λ q. q) result (curriculum_at sizes) }
    ensures forward { IfOk result (λ _. room_of feed.new < room_of feed.old) }
    ensures within { IfOk result (λ q. q < sizes.curricula) }
{
    let at = token(feed, source)?;
    index(feed.token(), at, CURRICULUM_LETTER, sizes.curricula)
}

/// Returns the price in one token.
#[inline(always)]
fn price(text: &[u8], at: usize) -> Result<u32, TextFault>
    ensures read { Gives (λ u. u) result (priced_as at (number_of MAX_PRICE text.now)) }
    ensures within { IfOk result (λ u. u ≤ MAX_PRICE) }
    ensures unread { ReportsNoFailedRead result }
{
    match number(&Token { bytes: text, at }, u64::from(MAX_PRICE)) {
        Ok(points) => Ok(points as u32),
        Err(_) => Err(TextFault::NotANumber(at)),
    }
}

/// Reads a price in cost points.
#[tactic(auto, unfolding(crate::specs::Reading::price_at))]
#[inline(always)]
pub fn read_price<R: Source>(feed: &mut Feed, source: &mut R) -> Result<u32, TextFault>
    ensures read { ReadsAs R.Source feed.old source.old feed.new source.new (λ u. u) result price_at }
    ensures forward { IfOk result (λ _. room_of feed.new < room_of feed.old) }
    ensures within { IfOk result (λ u. u ≤ MAX_PRICE) }
{
    let at = token(feed, source)?;
    price(feed.token(), at)
}
