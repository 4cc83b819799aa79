//! The command `report`.

use crate::arguments::Request;
use crate::description::{Argument, Condition, Description, Form, Range};
use crate::files::{INSTANCE, SOLUTION, TimetableFiles};
use crate::showing::{PROGRESS, QUIET};
use clap::ArgMatches;
use tt_report::By;

/// The maximum number of minutes of a period.
const MAX_MINUTES: u64 = 1_440;

/// The maximum number of weeks of a calendar.
const MAX_WEEKS: u64 = 520;

/// The name of the room, teacher or curriculum whose week a calendar shows, and the dates and times of the week.
#[derive(Clone, Copy, Debug)]
pub struct CalendarWish<'a> {
    pub by: By,
    pub name: &'a str,
    pub first_day: &'a str,
    pub times: &'a str,
    pub minutes: u32,
    pub weeks: u32,
}

/// The files of `report`, and whose weeks are shown.
#[derive(Clone, Copy, Debug)]
pub struct ReportRequest<'a> {
    pub files: TimetableFiles<'a>,
    pub by: By,
}

/// The files of `report --csv`, and whether names that look like formulas begin with an apostrophe.
#[derive(Clone, Copy, Debug)]
pub struct TableRequest<'a> {
    pub files: TimetableFiles<'a>,
    pub bars_formulas: bool,
}

/// The files of `report --changes`.
#[derive(Clone, Copy, Debug)]
pub struct ChangesRequest<'a> {
    pub files: TimetableFiles<'a>,
    /// The solution from which lectures moved.
    pub older: &'a str,
}

/// The files of `report --ics`, and the calendar.
#[derive(Clone, Copy, Debug)]
pub struct CalendarRequest<'a> {
    pub files: TimetableFiles<'a>,
    pub calendar: CalendarWish<'a>,
}

/// The option of the kind of blocks of a report.
const BY: Argument<'static> = Argument {
    id: "by",
    form: Form::Choice("KIND", &By::WORDS),
    help: "Whose weeks are shown",
    condition: Some(Condition::RequiredUnless(&["csv", "changes"])),
};

/// The option that prints a table instead of weeks.
const CSV: Argument<'static> = Argument {
    id: "csv",
    form: Form::Flag,
    help: "Prints one line for each lecture, for a spreadsheet",
    condition: Some(Condition::ConflictsWith(&["by"])),
};

/// The option that prints what changed instead of weeks.
const CHANGES: Argument<'static> = Argument {
    id: "changes",
    form: Form::Value("OLDER"),
    help: "Prints each lecture that moved since this older solution, and how many did",
    condition: Some(Condition::ConflictsWith(&["by", "csv"])),
};

/// The option that lets no name be a formula.
const NO_FORMULAS: Argument<'static> = Argument {
    id: "no-formulas",
    form: Form::Flag,
    help: "With --csv: an apostrophe before each name that a spreadsheet would take for a formula",
    condition: Some(Condition::Requires(&["csv"])),
};

/// The option that prints a calendar instead of weeks.
const ICS: Argument<'static> = Argument {
    id: "ics",
    form: Form::Value("NAME"),
    help: "Prints the week of the room, teacher or curriculum of this name as a calendar; --ics=NAME if it begins with a hyphen",
    condition: Some(Condition::Requires(&["by", "first-day", "times"])),
};

const FIRST_DAY: Argument<'static> = Argument {
    id: "first-day",
    form: Form::Value("DATE"),
    help: "The date of day 0 in the calendar, as 2027-02-01",
    condition: Some(Condition::Requires(&["ics"])),
};

const TIMES: Argument<'static> = Argument {
    id: "times",
    form: Form::Value("TIMES"),
    help: "When the periods of a day begin in the calendar, as 8:00,9:00",
    condition: Some(Condition::Requires(&["ics"])),
};

const MINUTES: Argument<'static> = Argument {
    id: "minutes",
    form: Form::Number(Range {
        least: 1,
        most: MAX_MINUTES,
        default: Some("45"),
    }),
    help: "How long a period is in the calendar, 1 to 1440 minutes",
    condition: Some(Condition::Requires(&["ics"])),
};

const WEEKS: Argument<'static> = Argument {
    id: "weeks",
    form: Form::Number(Range {
        least: 1,
        most: MAX_WEEKS,
        default: Some("1"),
    }),
    help: "How many times the week takes place in the calendar, 1 to 520",
    condition: Some(Condition::Requires(&["ics"])),
};

/// The command `report`.
pub const REPORT: Description<'static> = Description {
    name: "report",
    about: "Prints the week of each room, teacher or curriculum",
    example: "Example: tt report week.ctt week.sol --by teacher",
    arguments: &[
        INSTANCE,
        SOLUTION,
        BY,
        CSV,
        NO_FORMULAS,
        CHANGES,
        ICS,
        FIRST_DAY,
        TIMES,
        MINUTES,
        WEEKS,
        PROGRESS,
        QUIET,
    ],
};

/// Returns the kind of blocks that is given.
fn by_of(found: &ArgMatches<'_>) -> Option<By> {
    let word = found.get_str("by")?;
    for by in [By::Room, By::Teacher, By::Curriculum] {
        if by.word() == word {
            return Some(by);
        }
    }
    None
}

/// Returns the options of a calendar, if one is wanted.
fn calendar_wish<'a>(found: &ArgMatches<'a>, name: &'a str) -> Option<CalendarWish<'a>> {
    let minutes: u64 = found.get_one("minutes")?;
    let weeks: u64 = found.get_one("weeks")?;
    Some(CalendarWish {
        by: by_of(found)?,
        name,
        first_day: found.get_str("first-day")?,
        times: found.get_str("times")?,
        minutes: u32::try_from(minutes).ok()?,
        weeks: u32::try_from(weeks).ok()?,
    })
}

/// Returns the options given for the command `report`.
pub fn report_request<'a>(found: &ArgMatches<'a>) -> Option<Request<'a>> {
    let files = TimetableFiles {
        instance: found.get_str("INSTANCE")?,
        solution: found.get_str("SOLUTION")?,
    };
    if found.get_flag("csv") {
        let bars_formulas = found.get_flag("no-formulas");
        return Some(Request::Table(TableRequest {
            files,
            bars_formulas,
        }));
    }
    if let Some(older) = found.get_str("changes") {
        return Some(Request::Changes(ChangesRequest { files, older }));
    }
    if let Some(name) = found.get_str("ics") {
        let calendar = calendar_wish(found, name)?;
        return Some(Request::Calendar(CalendarRequest { files, calendar }));
    }
    let by = by_of(found)?;
    Some(Request::Report(ReportRequest { files, by }))
}
