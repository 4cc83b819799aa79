//! The places of the words of the table.

ghost use Rattle.std.specs.Prelude.{◌≡◌, ◌<◌, ◌≤◌, ◌+◌, ◌*◌, length};
ghost use Rattle.tt_path.specs.Facts.{IsWho};
ghost use Rattle.tt_path_pins.specs.Inner.Tables.{row_of, rows, day_place, days_size, width, block_place, room_place, size};
ghost use Rattle.tt_instance.specs.declared.limit.TheConstants.{MAX_COURSES, MAX_CURRICULA};

use tt_instance::Instance;
use tt_path::Who;

/// Returns the row of a course or a curriculum.
pub fn row_of(instance: &Instance<'_>, who: Who) -> usize
    requires { IsWho instance.now who }
    ensures value { result ≡ row_of instance.now who }
    ensures within { result < rows instance.now }
    ensures at_most { rows instance.now ≤ MAX_COURSES + MAX_CURRICULA }
{
    let courses = instance.courses() as usize;
    let curricula = instance.curricula() as usize;
    match who {
        Who::Course(course) => course as usize,
        Who::Curriculum(curriculum) => {
            prove!((curriculum as usize) < curricula);
            courses + curriculum as usize
        }
    }
}

/// Returns the place of the word of a day's periods.
pub fn day_place(instance: &Instance<'_>, who: Who, day: u32) -> usize
    requires who { IsWho instance.now who }
    requires day { day < instance.now.days }
    ensures value { result ≡ day_place instance.now (row_of instance.now who) day }
    ensures within { result < days_size instance.now }
    ensures inside { result < size instance.now }
{
    let days = instance.days() as usize;
    row_of(instance, who) * days + day as usize
}

/// Returns the place of the word of a course's rooms of a block: the room with number `block * 64` and the 63 that follow.
pub fn block_place(instance: &Instance<'_>, course: u32, block: u32) -> usize
    requires course { course < length instance.now.courses }
    requires block { block * 64 < length instance.now.rooms }
    ensures value { result ≡ block_place instance.now course block }
    ensures beyond { days_size instance.now ≤ result }
    ensures inside { result < size instance.now }
{
    let courses = instance.courses() as usize;
    let rows = courses + instance.curricula() as usize;
    let days = instance.days() as usize;
    let rooms = instance.rooms() as usize;
    prove!((course as usize) < courses);
    prove!((block as usize) < rooms);
    rows * days + (course as usize * ((rooms + 63) / 64) + block as usize)
}

/// Returns the place of the word that has a course's room.
pub fn room_place(instance: &Instance<'_>, course: u32, room: u32) -> usize
    requires course { course < length instance.now.courses }
    requires room { room < length instance.now.rooms }
    ensures value { result ≡ room_place instance.now course room }
    ensures beyond { days_size instance.now ≤ result }
    ensures inside { result < size instance.now }
{
    block_place(instance, course, room / 64)
}

/// Returns how many words the table has.
pub fn size(instance: &Instance<'_>) -> usize
    ensures { result ≡ size instance.now }
{
    let courses = instance.courses() as usize;
    let rows = courses + instance.curricula() as usize;
    let width = (instance.rooms() as usize + 63) / 64;
    rows * instance.days() as usize + courses * width
}
