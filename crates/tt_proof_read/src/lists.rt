//! The courses of a clique or of slots.

ghost use Rattle.std.specs.Prelude.{◌≡◌, ◌<◌, ◌==◌, not, true, false, IfOk, IfSome};
ghost use Rattle.tt_list_laws.specs.Words.{each_two, has_number};
ghost use Rattle.tt_leaf.specs.Ranges.{AreBelow};
ghost use Rattle.tt_text.specs.Feeds.{room_of};
ghost use Rattle.tt_proof_read.specs.Inner.Contract.{ReadsAs};
ghost use Rattle.tt_proof_read.specs.Faults.{ReportsNoFailedRead, Gives};
ghost use Rattle.tt_proof_read.specs.Reading.{listed_of, listed_at, list_at};

use crate::fault::TextFault;
use crate::fields::{index, token};
use crate::format::COURSE_LETTER;
use crate::seen::Seen;
use crate::sizes::Sizes;
use crate::tables::new_number;
use std::alloc::Global;
use tt_text::{Feed, Source};

/// Returns a course that differs from those before it, or none at `;`, in one token.
#[inline(always)]
fn listed(text: &[u8], at: usize, sizes: Sizes, seen: &Seen) -> Result<Option<u32>, TextFault>
    ensures read { Gives (λ c. c) result (listed_of sizes seen.now.numbers (record { text = text.now; at = at })) }
    ensures within { IfOk result (λ c. IfSome c (λ n. n < sizes.courses)) }
    ensures new { IfOk result (λ c. IfSome c (λ n. has_number seen.now.numbers n ≡ false)) }
    ensures unread { ReportsNoFailedRead result }
{
    if b";".as_slice() == text {
        return Ok(None);
    }
    let course = index(text, at, COURSE_LETTER, sizes.courses)?;
    let course = new_number(seen, course, at)?;
    Ok(Some(course))
}

#[tactic(auto, unfolding(crate::specs::Reading::listed_at))]
#[inline(always)]
fn read_listed<R: Source>(
    feed: &mut Feed,
    source: &mut R,
    sizes: Sizes,
    seen: &Seen,
) -> Result<Option<u32>, TextFault>
    ensures read { ReadsAs R.Source feed.old source.old feed.new source.new (λ c. c) result (listed_at sizes seen.now.numbers) }
    ensures forward { IfOk result (λ _. room_of feed.new < room_of feed.old) }
    ensures within { IfOk result (λ c. IfSome c (λ n. n < sizes.courses)) }
    ensures new { IfOk result (λ c. IfSome c (λ n. has_number seen.now.numbers n ≡ false)) }
{
    let at = token(feed, source)?;
    listed(feed.token(), at, sizes, seen)
}

/// Reads distinct courses up to `;`.
pub fn read_list<R: Source>(
    alloc: Global,
    feed: &mut Feed,
    source: &mut R,
    sizes: Sizes,
    seen: &mut Seen,
) -> Result<Vec<u32>, TextFault>
    requires { seen.old.count ≡ sizes.courses }
    ensures count { seen.new.count ≡ seen.old.count }
    ensures read { ReadsAs R.Source feed.old source.old feed.new source.new (λ v. v.items) result (list_at sizes) }
    ensures within { IfOk result (λ v. AreBelow sizes.courses v.items) }
    ensures once { IfOk result (λ v. each_two (λ a b. not (a == b)) v.items ≡ true) }
{
    seen.clear();
    while let Some(course) = read_listed(feed, source, sizes, seen)? {
        seen.add(course)?;
    }
    let courses = seen.to_vec(alloc)?;
    Ok(courses)
}
