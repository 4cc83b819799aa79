//! Prices of courses and of rooms.

ghost use Rattle.std.specs.Prelude.{◌≡◌, ◌≤◌, ◌<◌, IfOk, IfSome, OnOk};
ghost use Rattle.tt_text.specs.Feeds.{room_of};
ghost use Rattle.tt_proof_read.specs.Inner.Contract.{ReadsAs};
ghost use Rattle.tt_proof_read.specs.Faults.{ReportsNoFailedRead, Gives};
ghost use Rattle.tt_proof_read.specs.Inner.Pricing.{price_lists_of, seen_of, AreTables, IsUnseen, ArePriceLists};
ghost use Rattle.tt_proof_read.specs.Reading.{priced_in, priced_of, pair_at, prices_at};

use crate::fault::TextFault;
use crate::fields::{number_below, read_price, token};
use crate::format::{COURSE_LETTER, MAX_PRICE, ROOM_LETTER};
use crate::sizes::Sizes;
use crate::tables::{Tables, new_number};
use std::alloc::{AllocError, Global};
use tt_text::{Feed, Source};

/// A course or a room, by number.
#[derive(Clone, Copy, Debug)]
pub enum Priced {
    Course(u32),
    Room(u32),
}

/// The prices of courses and the prices of rooms.
#[derive(Drop)]
pub struct Prices {
    pub courses: Vec<(u32, u32)>,
    pub rooms: Vec<(u32, u32)>,
}

impl Prices {
    ghost use Rattle.std.specs.Prelude.{◌≡◌, OnOk};
    ghost use Rattle.tt_proof_read.specs.Inner.Pricing.{price_lists_of, seen_of, with_seen, IsIn};
    ghost use Rattle.tt_proof_read.specs.Reading.{with_priced};

    /// Adds a price, and adds its number to the tables.
    #[inline(always)]
    fn add(&mut self, tables: &mut Tables, priced: Priced, points: u32) -> Result<(), AllocError>
        requires { IsIn (tables.old.courses.count) (tables.old.rooms.count) priced }
        ensures added { OnOk result (price_lists_of self.new ≡ with_priced (price_lists_of self.old) priced points) }
        ensures seen { OnOk result (seen_of tables.new ≡ with_seen (seen_of tables.old) priced) }
        ensures courses { tables.new.courses.count ≡ tables.old.courses.count }
        ensures rooms { tables.new.rooms.count ≡ tables.old.rooms.count }
    {
        match priced {
            Priced::Course(course) => {
                tables.courses.add(course)?;
                self.courses.push((course, points))?;
            }
            Priced::Room(room) => {
                tables.rooms.add(room)?;
                self.rooms.push((room, points))?;
            }
        }
        Ok(())
    }
}

/// Returns a course or a room that has no price yet, in one token.
#[inline(always)]
fn new_priced(text: &[u8], at: usize, sizes: Sizes, tables: &Tables) -> Result<Priced, TextFault>
    ensures read { Gives (λ x. x) result (priced_in at sizes (seen_of tables.now) text.now) }
    ensures within { IfOk result (IsUnseen sizes (seen_of tables.now)) }
    ensures unread { ReportsNoFailedRead result }
{
    match text.split_first() {
        Some((&COURSE_LETTER, digits)) => {
            let course = number_below(digits, at, sizes.courses)?;
            let course = new_number(&tables.courses, course, at)?;
            Ok(Priced::Course(course))
        }
        Some((&ROOM_LETTER, digits)) => {
            let room = number_below(digits, at, sizes.rooms)?;
            let room = new_number(&tables.rooms, room, at)?;
            Ok(Priced::Room(room))
        }
        _ => Err(TextFault::UnknownWord(at)),
    }
}

/// Returns a course or a room that has no price yet, or none at `/`, in one token.
#[inline(always)]
fn priced_or_end(
    text: &[u8],
    at: usize,
    sizes: Sizes,
    tables: &Tables,
) -> Result<Option<Priced>, TextFault>
    ensures read { Gives (λ x. x) result (priced_of sizes (seen_of tables.now) (record { text = text.now; at = at })) }
    ensures within { IfOk result (λ x. IfSome x (IsUnseen sizes (seen_of tables.now))) }
    ensures unread { ReportsNoFailedRead result }
{
    if b"/".as_slice() == text {
        return Ok(None);
    }
    let priced = new_priced(text, at, sizes, tables)?;
    Ok(Some(priced))
}

#[tactic(auto, unfolding(crate::specs::Reading::pair_at))]
#[inline(always)]
fn read_pair<R: Source>(
    feed: &mut Feed,
    source: &mut R,
    sizes: Sizes,
    tables: &Tables,
) -> Result<Option<(Priced, u32)>, TextFault>
    ensures read { ReadsAs R.Source feed.old source.old feed.new source.new (λ x. x) result (pair_at sizes (seen_of tables.now)) }
    ensures forward { IfOk result (λ _. room_of feed.new < room_of feed.old) }
    ensures within { IfOk result (λ x. IfSome x (λ k. IsUnseen sizes (seen_of tables.now) k.0 × (k.1 ≤ MAX_PRICE))) }
{
    let at = token(feed, source)?;
    let Some(priced) = priced_or_end(feed.token(), at, sizes, tables)? else {
        return Ok(None);
    };
    let points = read_price(feed, source)?;
    Ok(Some((priced, points)))
}

/// Reads pairs up to `/`.
pub fn read_prices<R: Source>(
    alloc: Global,
    feed: &mut Feed,
    source: &mut R,
    sizes: Sizes,
    tables: &mut Tables,
) -> Result<Prices, TextFault>
    requires { AreTables sizes tables.old }
    ensures tables { AreTables sizes tables.new }
    ensures read { ReadsAs R.Source feed.old source.old feed.new source.new (λ k. price_lists_of k) result (prices_at sizes) }
    ensures forward { IfOk result (λ _. room_of feed.new < room_of feed.old) }
    ensures within { IfOk result (λ k. ArePriceLists sizes (price_lists_of k)) }
{
    let mut prices = Prices {
        courses: Vec::new(alloc),
        rooms: Vec::new(alloc),
    };
    tables.courses.clear();
    tables.rooms.clear();
    while let Some((priced, points)) = read_pair(feed, source, sizes, tables)? {
        prices.add(tables, priced, points)?;
    }
    Ok(prices)
}
