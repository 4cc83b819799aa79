//! The places of facts in their table.

ghost use Rattle.std.specs.Prelude.{◌≡◌, ◌<◌, ◌≤◌, ◌*◌, ℕ, not, length, IfSome, Bool};
ghost use Rattle.tt_path_pins.specs.Inner.FactTable.{fact_row, fact_rows, open_place, open_size, closed_place, fact_table_size, bit_place_in, bit_place_at, is_nowhere};
ghost use Rattle.tt_instance.specs.declared.limit.TheConstants.{MAX_COURSES, MAX_DAYS};

use tt_instance::Instance;
use tt_path::{Fact, Pattern, Who};

/// A place of the table and a number of the set there.
#[derive(Clone, Copy)]
pub struct BitPlace {
    pub place: usize,
    pub number: u32,
}

/// Returns the row of a course's yes-facts or no-facts.
fn fact_row(instance: &Instance<'_>, holds: bool, course: u32) -> usize
    requires { course < length instance.now.courses }
    ensures value { result ≡ fact_row instance.now holds course }
    ensures within { result < fact_rows instance.now }
    ensures at_most { fact_rows instance.now ≤ 2 * MAX_COURSES }
{
    let courses = instance.courses();
    prove!(course < courses);
    if holds {
        courses as usize + course as usize
    } else {
        course as usize
    }
}

/// Returns the place of a fact without a room.
fn open_place(instance: &Instance<'_>, holds: bool, course: u32, day: u32) -> usize
    requires course { course < length instance.now.courses }
    requires day { day < instance.now.days }
    ensures value { result ≡ open_place instance.now holds course day }
    ensures within { result < open_size instance.now }
    ensures at_most { open_size instance.now ≤ 2 * MAX_COURSES * MAX_DAYS }
{
    let days = instance.days() as usize;
    fact_row(instance, holds, course) * days + day as usize
}

/// Returns the place of a fact with a room.
fn closed_place(
    instance: &Instance<'_>,
    holds: bool,
    course: u32,
    day: u32,
    period: u32,
    room: u32,
) -> usize
    requires course { course < length instance.now.courses }
    requires day { day < instance.now.days }
    requires period { period < instance.now.periods }
    requires room { room < length instance.now.rooms }
    ensures value { result ≡ closed_place instance.now holds course day period room }
    ensures within { result < fact_table_size instance.now }
{
    let unroomed = open_size(instance);
    let periods = instance.periods() as usize;
    let width = (instance.rooms() as usize + 63) / 64;
    let row = open_place(instance, holds, course, day) * periods + period as usize;
    unroomed + (row * width + room as usize / 64)
}

/// Returns the number of words for facts without a room.
fn open_size(instance: &Instance<'_>) -> usize
    ensures value { result ≡ open_size instance.now }
    ensures at_most { result ≤ 2 * MAX_COURSES * MAX_DAYS }
{
    let courses = instance.courses() as usize;
    (courses + courses) * instance.days() as usize
}

/// Returns the number of words of the table.
pub fn fact_table_size(instance: &Instance<'_>) -> usize
    ensures { result ≡ fact_table_size instance.now }
{
    let unroomed = open_size(instance);
    let width = (instance.rooms() as usize + 63) / 64;
    unroomed + unroomed * instance.periods() as usize * width
}

/// Returns the place of a fact about a course, a day and a period.
fn bit_place_in(
    instance: &Instance<'_>,
    holds: bool,
    course: u32,
    day: u32,
    period: u32,
    room: Option<u32>,
) -> Option<BitPlace>
    requires course { course < length instance.now.courses }
    requires day { day < instance.now.days }
    requires period { period < instance.now.periods }
    ensures value { result ≡ bit_place_in instance.now holds course day period room }
    ensures place { IfSome result (λ x. x.place < fact_table_size instance.now) }
    ensures number { IfSome result (λ x. x.number < 64) }
{
    let Some(given) = room else {
        let periods = instance.periods();
        prove!(period < periods);
        return Some(BitPlace {
            place: open_place(instance, holds, course, day),
            number: period,
        });
    };
    if given >= instance.rooms() {
        return None;
    }
    Some(BitPlace {
        place: closed_place(instance, holds, course, day, period, given),
        number: given % 64,
    })
}

/// Returns whether the given room is in range; true if no room is given.
fn is_room_there(instance: &Instance<'_>, room: Option<u32>) -> bool
    ensures { (holds : Bool) (c d s : ℕ) → result ≡ not (is_nowhere (bit_place_in instance.now holds c d s room)) }
{
    match room {
        None => true,
        Some(given) => given < instance.rooms(),
    }
}

/// Returns whether a fact has a place. The place itself isn't computed, as that takes longer. Not inlined, like the call that lists
/// the fact.
#[inline(never)]
pub fn has_bit_place(instance: &Instance<'_>, fact: &Fact) -> bool
    ensures { result ≡ not (is_nowhere (bit_place_at instance.now fact.now.pattern fact.now.holds)) }
{
    let pattern = fact.pattern;
    let Who::Course(course) = pattern.who else {
        return false;
    };
    let Some(day) = pattern.day else {
        return false;
    };
    let Some(period) = pattern.period else {
        return false;
    };
    if course < instance.courses() && day < instance.days() && period < instance.periods() {
        is_room_there(instance, pattern.room)
    } else {
        false
    }
}

/// Returns the place of a fact; `None` if it doesn't give a course, a day and a period, or if a number that it gives is out of range.
pub fn find_bit_place(instance: &Instance<'_>, pattern: &Pattern, holds: bool) -> Option<BitPlace>
    ensures value { result ≡ bit_place_at instance.now pattern.now holds }
    ensures place { IfSome result (λ x. x.place < fact_table_size instance.now) }
    ensures number { IfSome result (λ x. x.number < 64) }
{
    let Who::Course(course) = pattern.who else {
        return None;
    };
    let Some(day) = pattern.day else {
        return None;
    };
    let Some(period) = pattern.period else {
        return None;
    };
    if course < instance.courses() && day < instance.days() && period < instance.periods() {
        bit_place_in(instance, holds, course, day, period, pattern.room)
    } else {
        None
    }
}
