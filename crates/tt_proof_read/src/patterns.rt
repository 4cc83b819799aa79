//! Patterns.

ghost use Rattle.std.specs.Prelude.{◌<◌, IfOk, IfSome};
ghost use Rattle.tt_instance.specs.Problem.{Problem};
ghost use Rattle.tt_path.specs.Facts.{IsWho, IsPattern};
ghost use Rattle.tt_proof_read.specs.Inner.Contract.{ReadsAs};
ghost use Rattle.tt_proof_read.specs.Faults.{ReportsNoFailedRead, Gives};
ghost use Rattle.tt_proof_read.specs.Sizes.{AreSizes};
ghost use Rattle.tt_proof_read.specs.Reading.{who_in, who_at, given_of, given_at, pattern_at};

use crate::fault::TextFault;
use crate::fields::{index, number_below, token};
use crate::format::{COURSE_LETTER, CURRICULUM_LETTER, DAY_LETTER, PERIOD_LETTER, ROOM_LETTER};
use crate::sizes::Sizes;
use tt_path::{Pattern, Who};
use tt_text::{Feed, Source};

/// Returns a course or a curriculum, in one token.
#[inline(always)]
fn who(text: &[u8], at: usize, sizes: Sizes) -> Result<Who, TextFault>
    ensures read { Gives (λ w. w) result (who_in at sizes text.now) }
    ensures within { (p : Problem) → AreSizes p sizes → IfOk result (IsWho p) }
    ensures unread { ReportsNoFailedRead result }
{
    match text.split_first() {
        Some((&COURSE_LETTER, digits)) => {
            let course = number_below(digits, at, sizes.courses)?;
            Ok(Who::Course(course))
        }
        Some((&CURRICULUM_LETTER, digits)) => {
            let curriculum = number_below(digits, at, sizes.curricula)?;
            Ok(Who::Curriculum(curriculum))
        }
        _ => Err(TextFault::UnknownWord(at)),
    }
}

#[tactic(auto, unfolding(crate::specs::Reading::who_at))]
#[inline(always)]
fn read_who<R: Source>(feed: &mut Feed, source: &mut R, sizes: Sizes) -> Result<Who, TextFault>
    ensures read { ReadsAs R.Source feed.old source.old feed.new source.new (λ w. w) result (who_at sizes) }
    ensures within { (p : Problem) → AreSizes p sizes → IfOk result (IsWho p) }
{
    let at = token(feed, source)?;
    who(feed.token(), at, sizes)
}

/// Returns a letter's number below a count, or none at `*`, in one token.
#[tactic(auto, unfolding(crate::specs::Reading::given_of))]
#[inline(always)]
fn given(text: &[u8], at: usize, letter: u8, count: u32) -> Result<Option<u32>, TextFault>
    ensures read { Gives (λ n. n) result (given_of letter count (record { text = text.now; at = at })) }
    ensures within { IfOk result (λ given. IfSome given (λ n. n < count)) }
    ensures unread { ReportsNoFailedRead result }
{
    match text {
        b"*" => Ok(None),
        _ => {
            let number = index(text, at, letter, count)?;
            Ok(Some(number))
        }
    }
}

#[tactic(auto, unfolding(crate::specs::Reading::given_at))]
#[inline(always)]
fn read_given<R: Source>(
    feed: &mut Feed,
    source: &mut R,
    letter: u8,
    count: u32,
) -> Result<Option<u32>, TextFault>
    ensures read { ReadsAs R.Source feed.old source.old feed.new source.new (λ n. n) result (given_at letter count) }
    ensures within { IfOk result (λ given. IfSome given (λ n. n < count)) }
{
    let at = token(feed, source)?;
    given(feed.token(), at, letter, count)
}

/// Reads a pattern.
#[tactic(auto, unfolding(crate::specs::Reading::pattern_at))]
#[inline(always)]
pub fn read_pattern<R: Source>(
    feed: &mut Feed,
    source: &mut R,
    sizes: Sizes,
) -> Result<Pattern, TextFault>
    ensures read { ReadsAs R.Source feed.old source.old feed.new source.new (λ g. g) result (pattern_at sizes) }
    ensures within { (p : Problem) → AreSizes p sizes → IfOk result (IsPattern p) }
{
    let who = read_who(feed, source, sizes)?;
    let room = read_given(feed, source, ROOM_LETTER, sizes.rooms)?;
    let day = read_given(feed, source, DAY_LETTER, sizes.days)?;
    let period = read_given(feed, source, PERIOD_LETTER, sizes.periods)?;
    Ok(Pattern {
        who,
        room,
        day,
        period,
    })
}
