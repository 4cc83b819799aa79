//! The levels of courses.

ghost use Rattle.std.specs.Prelude.{◌≡◌, ◌<◌, ◌≤◌, ℕ, length, IfOk};
ghost use Rattle.tt_instance.specs.Courses.{excess};
ghost use Rattle.tt_plans_slots.specs.Levels.{level};
ghost use Rattle.tt_plans_slots.specs.Inner.States.{AreLevels};

use std::alloc::{AllocError, Global};
use tt_instance::Instance;

/// Returns the number of seats that a course misses in a room.
fn missing_seats(instance: &Instance<'_>, course: u32, room: u32) -> u32
    requires { room < length instance.now.rooms }
    ensures { result ≡ excess instance.now course room }
{
    if course < instance.courses() {
        instance
            .students(course)
            .saturating_sub(instance.capacity(room))
    } else {
        0
    }
}

/// Returns the fewest seats that a course misses in a room.
fn fewest_missing(instance: &Instance<'_>, course: u32) -> u32
    ensures least { (r : ℕ) → r < length instance.now.rooms → result ≤ excess instance.now course r }
    ensures there { 0 < length instance.now.rooms
        → (r : ℕ) × (r < length instance.now.rooms) × (excess instance.now course r ≡ result) }
{
    let rooms = instance.rooms();
    if rooms == 0 {
        return 0;
    }
    let mut least = missing_seats(instance, course, 0);
    for room in 1..rooms {
        least = least.min(missing_seats(instance, course, room));
    }
    least
}

/// Returns the level of a course: the number of rooms that miss the fewest seats for it, less 1.
pub fn level_of(instance: &Instance<'_>, course: u32) -> u32
    ensures { result ≡ level instance.now course }
{
    let least = fewest_missing(instance, course);
    let mut count: u32 = 0;
    for room in 0..instance.rooms() {
        if missing_seats(instance, course, room) == least {
            count += 1;
        }
    }
    count.saturating_sub(1)
}

/// Returns the level of each course. Fails if memory runs out.
pub fn levels_of(alloc: Global, instance: &Instance<'_>) -> Result<Vec<u32>, AllocError>
    ensures { IfOk result (λ v. AreLevels instance.now v.items) }
{
    let mut levels = Vec::new(alloc);
    for course in 0..instance.courses() {
        levels.push(level_of(instance, course))?;
    }
    Ok(levels)
}
