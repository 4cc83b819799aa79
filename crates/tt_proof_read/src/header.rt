//! The header and the end of a proof.

ghost use Rattle.std.specs.Prelude.{◌≡◌, None};
ghost use Rattle.tt_proof_read.specs.Inner.Contract.{ReadsAs, ReadsPast};
ghost use Rattle.tt_proof_read.specs.Faults.{ReportsNoFailedRead, ReportsNoOutOfMemory, Gives};
ghost use Rattle.tt_proof_read.specs.Reading.{version_of, version_at, bound_of, bound_at, header_at, end_at};

use crate::fault::{TextFault, Word};
use crate::fields::{read_word, token};
use crate::format::MAX_POINTS;
use tt_leaf::Bound;
use tt_text::{Feed, Source, Token, number};

/// Returns the version in one token.
fn version(text: &[u8], at: usize) -> Result<u8, TextFault>
    ensures read { Gives (λ v. v) result (version_of (record { text = text.now; at = at })) }
    ensures unread { ReportsNoFailedRead result }
{
    match text {
        b"1" => Ok(1),
        b"2" => Ok(2),
        _ => Err(TextFault::Expected(Word::One, at)),
    }
}

#[tactic(auto, unfolding(crate::specs::Reading::version_at))]
fn read_version<R: Source>(feed: &mut Feed, source: &mut R) -> Result<u8, TextFault>
    ensures read { ReadsAs R.Source feed.old source.old feed.new source.new (λ v. v) result version_at }
{
    let at = token(feed, source)?;
    version(feed.token(), at)
}

/// Returns the bound in one token: `none`, or a number of cost points.
#[tactic(auto, unfolding(crate::specs::Reading::bound_of))]
fn bound(text: &[u8], at: usize) -> Result<Bound, TextFault>
    ensures read { Gives (λ b. b) result (bound_of (record { text = text.now; at = at })) }
    ensures unread { ReportsNoFailedRead result }
{
    if b"none".as_slice() == text {
        return Ok(Bound::Nothing);
    }
    match number(&Token { bytes: text, at }, MAX_POINTS) {
        Ok(points) => Ok(Bound::AtLeast(points)),
        Err(_) => Err(TextFault::NotANumber(at)),
    }
}

#[tactic(auto, unfolding(crate::specs::Reading::bound_at))]
fn read_bound<R: Source>(feed: &mut Feed, source: &mut R) -> Result<Bound, TextFault>
    ensures read { ReadsAs R.Source feed.old source.old feed.new source.new (λ b. b) result bound_at }
{
    let at = token(feed, source)?;
    bound(feed.token(), at)
}

/// Reads the version and the bound.
#[tactic(auto, unfolding(crate::specs::Reading::header_at))]
pub fn read_header<R: Source>(feed: &mut Feed, source: &mut R) -> Result<(u8, Bound), TextFault>
    ensures read { ReadsAs R.Source feed.old source.old feed.new source.new (λ h. h) result header_at }
{
    read_word(feed, source, Word::Cttp)?;
    let version = read_version(feed, source)?;
    read_word(feed, source, Word::Bound)?;
    let bound = read_bound(feed, source)?;
    Ok((version, bound))
}

/// Reads the last token, and checks that none comes after it.
#[tactic(auto, unfolding(crate::specs::Reading::end_at))]
pub fn read_end<R: Source>(feed: &mut Feed, source: &mut R) -> Result<(), TextFault>
    ensures read { ReadsPast R.Source feed.old source.old feed.new source.new result end_at }
    ensures memory { feed.old.fault ≡ None → ReportsNoOutOfMemory result }
{
    read_word(feed, source, Word::End)?;
    match feed.next(source) {
        Ok(None) => Ok(()),
        Ok(Some(at)) => Err(TextFault::TrailingToken(at)),
        Err(fault) => Err(TextFault::from(fault)),
    }
}
