//! The first table of an instance.

ghost use Rattle.std.specs.Prelude.{◌≡◌, [], not, IfOk};
ghost use Rattle.tt_instance.specs.Courses.{unavailable};
ghost use Rattle.tt_path_tables.specs.Inner.Words.{size};
ghost use Rattle.tt_path_tables.specs.Inner.Tables.{Shows};
ghost use Rattle.tt_path_tables.specs.Inner.First.{AreFull};

use crate::places::{PLAIN, width};
use crate::removing::remove_rooms;
use crate::spot::Spot;
use std::alloc::{AllocError, Global};
use tt_bits::{Trail, below};
use tt_instance::{Instance, Slot};

/// Creates the words of a table that has all cells.
fn full_words(alloc: Global, instance: &Instance<'_>) -> Result<Vec<u64>, AllocError>
    ensures { IfOk result (λ v. AreFull instance.now v.items (size instance.now)) }
{
    let rooms = instance.rooms();
    let width = width(instance) as usize;
    let slots = instance.courses() as usize
        * (instance.days() as usize + 1)
        * (instance.periods() as usize + 1);
    let mut words = Vec::new(alloc);
    for index in 0..slots * width {
        let block = (index % width) as u32;
        words.push(below(rooms.saturating_sub(block * 64)))?;
    }
    Ok(words)
}

/// Creates a table of the cells whose period is available to their course.
pub fn first_table(alloc: Global, instance: &Instance<'_>) -> Result<Trail, AllocError>
    ensures shows { IfOk result (λ t. Shows instance.now
        (λ x. not (unavailable instance.now x.course x.day x.period)) t.words) }
    ensures earlier { IfOk result (λ t. t.earlier ≡ []) }
{
    let mut words = full_words(alloc, instance)?;
    words.push(PLAIN)?;
    let mut table = Trail::new(alloc, words);
    let courses = instance.courses();
    let days = instance.days();
    let periods = instance.periods();
    for index in 0..instance.unavailabilities() {
        let (course, day, period) = instance.unavailability(index);
        if course >= courses || day >= days || period >= periods {
            continue;
        }
        let spot = Spot {
            room: None,
            course,
            slot: Slot { day, period },
        };
        remove_rooms(instance, &mut table, spot)?;
    }
    Ok(table)
}
