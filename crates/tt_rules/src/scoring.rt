//! The score of a timetable.

ghost use Rattle.tt_table.specs.Table.{IsTimetable};
ghost use Rattle.tt_rules.specs.Score.{IsScore};

use crate::counts::Score;
use crate::{
    availability, capacity, compactness, conflicts, lectures, occupancy, stability, working_days,
};
use tt_instance::Instance;
use tt_table::{Groups, Timetable};

/// Returns the eight counts of a timetable whose entries are all in the instance's range.
pub fn score(instance: &Instance<'_>, table: &Timetable) -> Score
    requires { IsTimetable instance.now table.now }
    ensures { IsScore instance.now table.now result }
{
    let entries = table.entries();
    let by_course = Groups::by_course(instance, entries);
    Score {
        lectures: lectures::count(instance, &by_course),
        conflicts: conflicts::count(instance, entries, &Groups::by_period(instance, entries)),
        availability: availability::count(instance, entries),
        room_occupancy: occupancy::count(instance, &Groups::by_room(instance, entries)),
        room_capacity: capacity::students_without_seat(instance, entries),
        min_working_days: working_days::cost(instance, &by_course),
        compactness: compactness::cost(instance, &by_course),
        room_stability: stability::cost(instance, &by_course),
    }
}
