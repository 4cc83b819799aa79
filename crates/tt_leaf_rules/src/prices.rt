//! The seats that several courses lack, with prices of courses and of rooms.

ghost use Rattle.std.specs.Prelude.{◌≡◌, ◌<◌, ◌≤◌, ◌+◌, ◌*◌, ◌/◌, ◌%◌, ◌^◌, ◌&&◌, ℕ, nat_lt, cond, sum_by, length, slice_index_or};
ghost use Rattle.std.specs.List.{list_all};
ghost use Rattle.tt_bits.specs.Inner.Bits.{has_bit};
ghost use Rattle.tt_instance.specs.Cells.{slot, all_slots};
ghost use Rattle.tt_instance.specs.Courses.{lectures, excess};
ghost use Rattle.tt_leaf_rules.specs.Claims.{price_in, are_covered, value_of};
ghost use Rattle.tt_leaf_rules.specs.Inner.Nested.{PricesBelow, clear_in, priced_live_in, course_prices, room_prices, covered};
ghost use Rattle.tt_leaf.specs.Ranges.{ArePrices};
ghost use Rattle.tt_leaf.specs.declared.leaf.Claim.TheVariants.{Prices};
ghost use Rattle.tt_instance.specs.declared.limit.TheConstants.{MAX_COURSES, MAX_ROOMS, MAX_SLOTS};
ghost use Rattle.tt_leaf_rules.specs.declared.limit.TheConstants.{MAX_TARGET_VALUE};

use crate::room_prices::RoomPrices;
use crate::slots::{slot_at, slot_count};
use tt_bits::{below, both, either, has_bit, is_empty, with_if};
use tt_instance::{Instance, MAX_ROOMS, Slot};
use tt_path::Path;

/// The rooms of a block: a word has one bit for each.
const BLOCK: u32 = 64;

/// There are at most this many blocks of rooms.
const BLOCKS: usize = 8;

/// Returns how many blocks the rooms make.
fn block_count(instance: &Instance<'_>) -> u32
    ensures whole { length instance.now.rooms ≤ result * 64 }
    ensures last { result * 64 < length instance.now.rooms + 64 }
    ensures within { result ≤ 8 }
{
    instance.rooms().div_ceil(BLOCK)
}

// ---- covered prices

/// Returns whether the excess of a course in a room and the room's price are less than the course's price.
fn is_dear(instance: &Instance<'_>, prices: &RoomPrices<'_>, priced: (u32, u32), room: u32) -> bool
    requires course { priced.0 < length instance.now.courses }
    requires room { room < length instance.now.rooms }
    ensures { result ≡ nat_lt (excess instance.now priced.0 room + price_in prices.now room) priced.1 }
{
    // Brings the instance's limits into the proof.
    prove!(instance.rooms() <= MAX_ROOMS);
    let (course, price) = priced;
    let excess = instance
        .students(course)
        .saturating_sub(instance.capacity(room));
    u64::from(excess) + u64::from(prices.of(room)) < u64::from(price)
}

/// Returns the rooms of a block in which a live cell of the course would not be covered, as a set.
fn dear_rooms(
    instance: &Instance<'_>,
    prices: &RoomPrices<'_>,
    priced: (u32, u32),
    block: u32,
) -> u64
    requires course { priced.0 < length instance.now.courses }
    requires block { block * 64 < length instance.now.rooms }
    ensures { (n : ℕ) → n < 64 → has_bit result n ≡ (nat_lt (block * 64 + n) (length instance.now.rooms)
        && nat_lt (excess instance.now priced.0 (block * 64 + n) + price_in prices.now (block * 64 + n)) priced.1) }
{
    let rooms = instance.rooms();
    let first = block * BLOCK;
    let mut dear = 0;
    for number in 0..(rooms - first).min(BLOCK) {
        dear = with_if(
            dear,
            number,
            is_dear(instance, prices, priced, first + number),
        );
    }
    dear
}

/// Returns whether the course has no live cell in these rooms of a block in the period.
fn is_clear_in<'i, P: Path<'i>>(path: &P, course: u32, block: u32, rooms: u64, slot: Slot) -> bool
    requires course { course < length (P.problem path.now).courses }
    requires block { block * 64 < length (P.problem path.now).rooms }
    requires day { slot.day < (P.problem path.now).days }
    requires period { slot.period < (P.problem path.now).periods }
    ensures { result ≡ clear_in (P.problem path.now) (P.facts path.now) course block rooms slot }
{
    let live = path.live_rooms(course, slot.day, slot.period, block);
    is_empty(both(rooms, live))
}

/// Returns whether the course has no live cell in these rooms of a block.
fn is_block_clear<'i, P: Path<'i>>(path: &P, course: u32, block: u32, rooms: u64) -> bool
    requires course { course < length (P.problem path.now).courses }
    requires block { block * 64 < length (P.problem path.now).rooms }
    ensures { result ≡ list_all (clear_in (P.problem path.now) (P.facts path.now) course block rooms) (all_slots (P.problem path.now)) }
{
    if rooms == 0 {
        return true;
    }
    let instance = path.instance();
    for place in 0..slot_count(instance) {
        if !is_clear_in(path, course, block, rooms, slot_at(instance, place)) {
            return false;
        }
    }
    true
}

/// Returns whether for each live cell of the course the excess and the room's price cover the course's price. Only rooms that are too cheap are
/// looked at in each period, 64 at a time.
fn is_covered<'i, P: Path<'i>>(path: &P, prices: &RoomPrices<'_>, priced: (u32, u32)) -> bool
    requires { priced.0 < length (P.problem path.now).courses }
    ensures { result ≡ covered (P.problem path.now) (P.facts path.now) prices.now priced }
{
    let instance = path.instance();
    for block in 0..block_count(instance) {
        let dear = dear_rooms(instance, prices, priced, block);
        if !is_block_clear(path, priced.0, block, dear) {
            return false;
        }
    }
    true
}

/// Returns whether for each live cell of a listed course the excess and the room's price cover the course's price.
pub fn are_covered<'i, P: Path<'i>>(path: &P, courses: &[(u32, u32)], rooms: &[(u32, u32)]) -> bool
    requires { PricesBelow (length (P.problem path.now).courses) courses.now }
    ensures { result ≡ are_covered (P.problem path.now) (P.facts path.now) courses.now rooms.now }
{
    let prices = RoomPrices::new(rooms);
    for priced in courses {
        if !is_covered(path, &prices, *priced) {
            return false;
        }
    }
    true
}

// -- the value of the prices

/// Returns the rooms of a block in which one of the courses has a live cell in the period, as a set. Once each room has one, no further course is
/// visited.
fn open_block<'i, P: Path<'i>>(
    path: &P,
    courses: &[(u32, u32)],
    day: u32,
    period: u32,
    block: u32,
) -> u64
    requires courses { PricesBelow (length (P.problem path.now).courses) courses.now }
    requires day { day < (P.problem path.now).days }
    requires period { period < (P.problem path.now).periods }
    requires block { block * 64 < length (P.problem path.now).rooms }
    ensures { (n : ℕ) → n < 64 → has_bit result n ≡ (nat_lt (block * 64 + n) (length (P.problem path.now).rooms)
        && priced_live_in (P.problem path.now) (P.facts path.now) courses.now (block * 64 + n) (slot day period)) }
{
    let all = below(path.instance().rooms() - block * BLOCK);
    let mut open = 0;
    for (course, _) in courses {
        if open == all {
            return open;
        }
        open = either(open, path.live_rooms(*course, day, period, block));
    }
    open
}

/// Returns the rooms in which one of the courses has a live cell in the period, a word for each block.
fn open_words<'i, P: Path<'i>>(
    path: &P,
    courses: &[(u32, u32)],
    day: u32,
    period: u32,
) -> [u64; BLOCKS]
    requires courses { PricesBelow (length (P.problem path.now).courses) courses.now }
    requires day { day < (P.problem path.now).days }
    requires period { period < (P.problem path.now).periods }
    ensures { (r : ℕ) → r < length (P.problem path.now).rooms → has_bit (slice_index_or result (r / 64) 0) (r % 64)
        ≡ priced_live_in (P.problem path.now) (P.facts path.now) courses.now r (slot day period) }
{
    let mut words = [0; BLOCKS];
    for block in 0..block_count(path.instance()) {
        words[block as usize] = open_block(path, courses, day, period, block);
    }
    words
}

/// Returns the sum of the prices of the rooms in which one of the courses has a live cell in the period.
fn paid_in_period<'i, P: Path<'i>>(
    path: &P,
    courses: &[(u32, u32)],
    rooms: &[(u32, u32)],
    day: u32,
    period: u32,
) -> u64
    requires courses { PricesBelow (length (P.problem path.now).courses) courses.now }
    requires rooms { PricesBelow (length (P.problem path.now).rooms) rooms.now }
    requires at_most { length rooms.now ≤ MAX_ROOMS }
    requires day { day < (P.problem path.now).days }
    requires period { period < (P.problem path.now).periods }
    ensures value { result ≡ sum_by (λ k. cond (priced_live_in (P.problem path.now) (P.facts path.now) courses.now k.0 (slot day period)) k.1 0) rooms.now }
    ensures within { result ≤ MAX_ROOMS * 2 ^ 32 }
{
    // Brings the instance's limits into the proof.
    prove!(path.instance().rooms() <= MAX_ROOMS);
    let open = open_words(path, courses, day, period);
    let mut total: u64 = 0;
    for (room, price) in rooms {
        if has_bit(open[(*room / BLOCK) as usize], *room % BLOCK) {
            total += u64::from(*price);
        }
    }
    total
}

fn course_price(instance: &Instance<'_>, course: u32, price: u32) -> u64
    requires { course < length instance.now.courses }
    ensures value { result ≡ lectures instance.now course * price }
    ensures within { result ≤ MAX_TARGET_VALUE }
{
    u64::from(instance.lectures(course)) * u64::from(price)
}

fn course_prices(instance: &Instance<'_>, courses: &[(u32, u32)]) -> u64
    requires below { PricesBelow (length instance.now.courses) courses.now }
    requires at_most { length courses.now ≤ MAX_COURSES }
    ensures value { result ≡ course_prices instance.now courses.now }
    ensures within { result ≤ length courses.now * MAX_TARGET_VALUE }
{
    let mut total: u64 = 0;
    for (course, price) in courses {
        total += course_price(instance, *course, *price);
    }
    total
}

/// Returns the sum of the prices of rooms for each period in which one of the courses has a live cell in the room.
fn room_prices<'i, P: Path<'i>>(path: &P, courses: &[(u32, u32)], rooms: &[(u32, u32)]) -> u64
    requires courses { PricesBelow (length (P.problem path.now).courses) courses.now }
    requires rooms { PricesBelow (length (P.problem path.now).rooms) rooms.now }
    requires at_most { length rooms.now ≤ MAX_ROOMS }
    ensures { result ≡ room_prices (P.problem path.now) (P.facts path.now) courses.now rooms.now }
{
    let instance = path.instance();
    let mut total: u64 = 0;
    for place in 0..slot_count(instance) {
        let slot = slot_at(instance, place);
        total += paid_in_period(path, courses, rooms, slot.day, slot.period);
    }
    total
}

/// Returns the value of a claim of prices, in cost points.
#[tactic(auto, using(crate::proofs::Sizes::prices_below))]
pub fn prices_value<'i, P: Path<'i>>(path: &P, courses: &[(u32, u32)], rooms: &[(u32, u32)]) -> u64
    requires courses { ArePrices (length (P.problem path.now).courses) courses.now }
    requires rooms { ArePrices (length (P.problem path.now).rooms) rooms.now }
    ensures value { result ≡ value_of (P.problem path.now) (P.facts path.now) (Prices courses.now rooms.now) }
    ensures within { result ≤ length courses.now * MAX_TARGET_VALUE }
{
    let instance = path.instance();
    // Each course and each room has at most one price.
    prove!(courses.len() <= instance.courses() as usize);
    prove!(rooms.len() <= instance.rooms() as usize);
    course_prices(instance, courses).saturating_sub(room_prices(path, courses, rooms))
}
