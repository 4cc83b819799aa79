//! The claims of a cost leaf.

ghost use Rattle.std.specs.Prelude.{◌<◌, IfOk, IfSome, All};
ghost use Rattle.tt_text.specs.Feeds.{room_of};
ghost use Rattle.tt_proof_read.specs.Inner.Contract.{ReadsAs};
ghost use Rattle.tt_proof_read.specs.Faults.{ReportsNoFailedRead, Gives};
ghost use Rattle.tt_proof_read.specs.Inner.Pricing.{AreTables};
ghost use Rattle.tt_proof_read.specs.Readers.{IsWordIn, IsClaimAt};
ghost use Rattle.tt_proof_read.specs.Reading.{claim_word_of, claim_after_word, claim_at, claims_at};

use crate::fault::TextFault;
use crate::fields::{read_course, read_curriculum, read_price, token};
use crate::form::ProofForm;
use crate::prices::read_prices;
use crate::tables::Tables;
use std::alloc::Global;
use tt_leaf::{Claim, PriceList};
use tt_text::{Feed, Source};

/// The first token of a claim.
#[derive(Clone, Copy, Debug)]
pub enum ClaimWord {
    Capacity,
    Days,
    Compact,
    Stable,
    Prices,
    Stacked,
}

/// Reads the word of a claim, or none at `;`, in one token.
#[inline(always)]
fn claim_word(text: &[u8], at: usize, version: u8) -> Result<Option<ClaimWord>, TextFault>
    ensures read { Gives (λ w. w) result (claim_word_of version (record { text = text.now; at = at })) }
    ensures within { IfOk result (λ w. IfSome w (IsWordIn version)) }
    ensures unread { ReportsNoFailedRead result }
{
    match text {
        b";" => Ok(None),
        b"C" => Ok(Some(ClaimWord::Capacity)),
        b"D" => Ok(Some(ClaimWord::Days)),
        b"Q" => Ok(Some(ClaimWord::Compact)),
        b"R" => Ok(Some(ClaimWord::Stable)),
        b"P" if version == 2 => Ok(Some(ClaimWord::Prices)),
        b"T" if version == 2 => Ok(Some(ClaimWord::Stacked)),
        _ => Err(TextFault::UnknownWord(at)),
    }
}

/// Reads the rest of a claim after its word.
#[tactic(auto, unfolding(crate::specs::Reading::claim_after_word))]
#[inline(always)]
fn read_claim_after_word<R: Source>(
    alloc: Global,
    feed: &mut Feed,
    source: &mut R,
    form: ProofForm,
    word: ClaimWord,
    tables: &mut Tables,
) -> Result<Claim, TextFault>
    requires word { IsWordIn form.version word }
    requires tables { AreTables form.sizes tables.old }
    ensures tables { AreTables form.sizes tables.new }
    ensures read { ReadsAs R.Source feed.old source.old feed.new source.new (λ c. c) result (claim_after_word form.sizes word) }
    ensures forward { IfOk result (λ _. room_of feed.new < room_of feed.old) }
    ensures within { IfOk result (IsClaimAt form.sizes form.version) }
{
    let sizes = form.sizes;
    match word {
        ClaimWord::Capacity => {
            let course = read_course(feed, source, sizes)?;
            let price = read_price(feed, source)?;
            Ok(Claim::Capacity { course, price })
        }
        ClaimWord::Days => {
            let course = read_course(feed, source, sizes)?;
            Ok(Claim::Days(course))
        }
        ClaimWord::Compact => {
            let curriculum = read_curriculum(feed, source, sizes)?;
            Ok(Claim::Compact(curriculum))
        }
        ClaimWord::Stable => {
            let course = read_course(feed, source, sizes)?;
            Ok(Claim::Stable(course))
        }
        ClaimWord::Prices => {
            let prices = read_prices(alloc, feed, source, sizes, tables)?;
            Ok(Claim::Prices {
                courses: PriceList::new(prices.courses),
                rooms: PriceList::new(prices.rooms),
            })
        }
        ClaimWord::Stacked => {
            let course = read_course(feed, source, sizes)?;
            Ok(Claim::Stacked(course))
        }
    }
}

/// Reads a claim, or none at `;`.
#[tactic(auto, unfolding(crate::specs::Reading::claim_at))]
#[inline(always)]
fn read_claim<R: Source>(
    alloc: Global,
    feed: &mut Feed,
    source: &mut R,
    form: ProofForm,
    tables: &mut Tables,
) -> Result<Option<Claim>, TextFault>
    requires { AreTables form.sizes tables.old }
    ensures tables { AreTables form.sizes tables.new }
    ensures read { ReadsAs R.Source feed.old source.old feed.new source.new (λ c. c) result (claim_at form.sizes form.version) }
    ensures forward { IfOk result (λ _. room_of feed.new < room_of feed.old) }
    ensures within { IfOk result (λ c. IfSome c (IsClaimAt form.sizes form.version)) }
{
    let at = token(feed, source)?;
    let Some(word) = claim_word(feed.token(), at, form.version)? else {
        return Ok(None);
    };
    let claim = read_claim_after_word(alloc, feed, source, form, word, tables)?;
    Ok(Some(claim))
}

/// Reads claims up to `;`.
pub fn read_claims<R: Source>(
    alloc: Global,
    feed: &mut Feed,
    source: &mut R,
    form: ProofForm,
    tables: &mut Tables,
) -> Result<Vec<Claim>, TextFault>
    requires { AreTables form.sizes tables.old }
    ensures tables { AreTables form.sizes tables.new }
    ensures read { ReadsAs R.Source feed.old source.old feed.new source.new (λ v. v.items) result (claims_at form.sizes form.version) }
    ensures within { IfOk result (λ v. All (IsClaimAt form.sizes form.version) v.items) }
{
    let mut claims = Vec::new(alloc);
    while let Some(claim) = read_claim(alloc, feed, source, form, tables)? {
        claims.push(claim)?;
    }
    Ok(claims)
}
