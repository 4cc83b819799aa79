//! The files of `report --ics`.

use crate::timetable::read_timetable;
use tt_call_texts::{WeekTimes, calendar};
use tt_cli_arguments::{CalendarRequest, CalendarWish};
use tt_cli_progress::World;
use tt_cli_saving::{CommandFault, Reply};

/// Returns a calendar of a solution.
pub fn answer_calendar<R: World>(
    rt: &R,
    request: CalendarRequest<'_>,
) -> Result<Reply, CommandFault> {
    let texts = read_timetable(rt, request.files)?;
    let CalendarWish {
        by,
        name,
        first_day,
        times,
        minutes,
        weeks,
    } = request.calendar;
    let times = WeekTimes {
        first_day,
        times,
        minutes,
        weeks,
    };
    let name = name.as_bytes();
    let answer = calendar(
        rt.alloc(),
        &texts.instance,
        &texts.solution,
        by,
        name,
        times,
    )?;
    Ok(Reply::to(rt.alloc(), answer)?)
}
