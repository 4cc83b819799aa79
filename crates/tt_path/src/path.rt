//! Paths: lists of facts over one instance, and what they leave possible.

ghost use Rattle.std.specs.Prelude.{◌≡◌, ◌<◌, ◌≤◌, ◌+◌, ◌*◌, ◌&&◌, ℕ, nat_lt, [], ◌∷◌, ◌++◌, List, length, slice_get, Some, IfSome, OnOk, OnErr, IsErrOf, IsOkUnless};
ghost use Rattle.tt_instance.specs.Problem.{Problem};
ghost use Rattle.tt_bits.specs.Inner.Bits.{has_bit};
ghost use Rattle.tt_instance.specs.Cells.{InRange, slot, cell};
ghost use Rattle.tt_path.specs.Facts.{IsWho, has_fact};
ghost use Rattle.tt_path.specs.Live.{is_dead, is_live, live_period, live_day, least_excess, pinned, pinned_room};
ghost use Rattle.tt_path.specs.declared.facts.Fact.{Fact};
ghost use Rattle.tt_instance.specs.declared.limit.TheConstants.{MAX_SEATS};

use crate::facts::{Fact, Pattern, Who};
use thiserror::Error;
use tt_instance::{Cell, Instance};

/// The maximum number of facts of a path.
pub const MAX_FACTS: u32 = 65_536;

/// Why a fact was not added.
#[derive(Clone, Copy, Debug, PartialEq, Eq, Error)]
pub enum PathFault {
    /// The path has the maximum number of facts.
    #[error("too deep")]
    TooDeep,
    #[error("out of memory")]
    OutOfMemory,
}

/// A list of facts over one instance. Courses, rooms, days and periods are numbered from 0.
pub trait Path<'i> {
    // The instance.
    ghost problem: { Self → Problem };

    // The facts, the oldest first.
    ghost facts: { Self → List Fact };

    /// Returns the instance that the facts are about.
    fn instance(&self) -> &Instance<'i>
        ensures { result.now ≡ problem self.now };

    /// Returns the number of facts, at most `MAX_FACTS`.
    fn depth(&self) -> u32
        ensures value { result ≡ length (facts self.now) }
        ensures within { result ≤ MAX_FACTS };

    /// Returns the fact at a place, counted from the oldest.
    fn fact(&self, index: u32) -> Fact
        requires { index < length (facts self.now) }
        ensures { slice_get (facts self.now) index ≡ Some result };

    /// Adds a fact after the others.
    fn push(&mut self, fact: Fact) -> Result<(), PathFault>
        ensures ok { OnOk result (facts self.new ≡ facts self.old ++ fact ∷ []) }
        ensures deep { length (facts self.old) ≡ MAX_FACTS → IsErrOf result PathFault.TooDeep }
        ensures room { length (facts self.old) < MAX_FACTS → IsOkUnless result PathFault.OutOfMemory }
        ensures err { OnErr result (facts self.new ≡ facts self.old) }
        ensures unchanged { problem self.new ≡ problem self.old };

    /// Removes the newest fact and returns it.
    fn pop(&mut self) -> Fact
        requires { 0 < length (facts self.old) }
        ensures fact { facts self.old ≡ facts self.new ++ result ∷ [] }
        ensures unchanged { problem self.new ≡ problem self.old };

    /// Returns whether exactly this fact is on the path.
    fn has(&self, pattern: &Pattern, holds: bool) -> bool
        ensures { result ≡ has_fact (facts self.now) pattern.now holds };

    /// Returns whether a cell is barred, or excluded by some yes-fact.
    fn dead(&self, cell: Cell) -> bool
        requires { InRange (problem self.now) cell }
        ensures { result ≡ is_dead (problem self.now) (facts self.now) cell };

    /// Returns whether some room gives a live cell of the course in the period.
    fn live_period(&self, course: u32, day: u32, period: u32) -> bool
        requires course { course < length (problem self.now).courses }
        requires day { day < (problem self.now).days }
        requires period { period < (problem self.now).periods }
        ensures { result ≡ live_period (problem self.now) (facts self.now) course (slot day period) };

    /// Returns the live periods of a course on a day, as a set.
    fn live_periods(&self, course: u32, day: u32) -> u64
        requires course { course < length (problem self.now).courses }
        requires day { day < (problem self.now).days }
        ensures { (s : ℕ) → s < 64 → has_bit result s
            ≡ (nat_lt s (problem self.now).periods && live_period (problem self.now) (facts self.now) course (slot day s)) };

    /// Returns the rooms of a block whose cells of the course in the period are live, as a set. The block consists of the room with number
    /// `block * 64` and the 63 that follow.
    fn live_rooms(&self, course: u32, day: u32, period: u32, block: u32) -> u64
        requires course { course < length (problem self.now).courses }
        requires day { day < (problem self.now).days }
        requires period { period < (problem self.now).periods }
        requires block { block * 64 < length (problem self.now).rooms }
        ensures { (n : ℕ) → n < 64 → has_bit result n
            ≡ (nat_lt (block * 64 + n) (length (problem self.now).rooms)
            && is_live (problem self.now) (facts self.now) (cell course (block * 64 + n) (slot day period))) };

    /// Returns whether the course has a live period on the day.
    fn live_day(&self, course: u32, day: u32) -> bool
        requires course { course < length (problem self.now).courses }
        requires day { day < (problem self.now).days }
        ensures { result ≡ live_day (problem self.now) (facts self.now) course day };

    /// Returns the least excess, in students, of the course's live cells in the period; `None` if no cell is live.
    fn least_excess(&self, course: u32, day: u32, period: u32) -> Option<u64>
        requires course { course < length (problem self.now).courses }
        requires day { day < (problem self.now).days }
        requires period { period < (problem self.now).periods }
        ensures value { result ≡ least_excess (problem self.now) (facts self.now) course (slot day period) }
        ensures within { IfSome result (λ n. n ≤ MAX_SEATS) };

    /// Returns whether a yes-fact about it (for a curriculum, also about a member) gives this day and period.
    fn pinned(&self, who: Who, day: u32, period: u32) -> bool
        requires who { IsWho (problem self.now) who }
        requires day { day < (problem self.now).days }
        requires period { period < (problem self.now).periods }
        ensures { result ≡ pinned (problem self.now) (facts self.now) who (slot day period) };

    /// Returns the pinned periods of a course or a curriculum on a day, as a set.
    fn pinned_periods(&self, who: Who, day: u32) -> u64
        requires who { IsWho (problem self.now) who }
        requires day { day < (problem self.now).days }
        ensures { (s : ℕ) → s < 64 → has_bit result s
            ≡ (nat_lt s (problem self.now).periods && pinned (problem self.now) (facts self.now) who (slot day s)) };

    /// Returns whether a yes-fact about the course gives this room.
    fn pinned_room(&self, course: u32, room: u32) -> bool
        requires course { course < length (problem self.now).courses }
        requires room { room < length (problem self.now).rooms }
        ensures { result ≡ pinned_room (problem self.now) (facts self.now) course room };

    /// Returns the pinned rooms of a course in a block, as a set. The block consists of the room with number `block * 64` and the 63 that follow.
    fn pinned_rooms(&self, course: u32, block: u32) -> u64
        requires course { course < length (problem self.now).courses }
        requires block { block * 64 < length (problem self.now).rooms }
        ensures { (n : ℕ) → n < 64 → has_bit result n
            ≡ (nat_lt (block * 64 + n) (length (problem self.now).rooms)
            && pinned_room (problem self.now) (facts self.now) course (block * 64 + n)) };
}
