//! The command `page`.

use crate::arguments::Request;
use crate::description::{Argument, Condition, Description, Form};
use crate::files::{INSTANCE, OUT, SOLUTION};
use crate::showing::{PROGRESS, QUIET, Showing, showing_of};
use crate::sums::words_of;
use clap::ArgMatches;
use std::alloc::{AllocError, Global};
use tt_report::By;

/// The names of the days and of the periods of a page, as they are given; days or periods without names show their numbers.
#[derive(Clone, Copy, Debug)]
pub struct GivenNames<'a> {
    pub days: Option<&'a str>,
    pub periods: Option<&'a str>,
}

/// The weeks of a page that shows no more than them.
#[derive(Clone, Copy, Debug)]
pub enum GivenWeeks<'a> {
    /// The weeks of all rooms, of all teachers or of all curricula.
    Section(By),
    Days,
    /// The weeks of the room, the teacher and the curriculum of this name.
    Named(&'a str),
}

/// The files and options of `page`.
#[derive(Drop)]
pub struct PageRequest<'a> {
    pub instance: &'a str,
    pub solution: &'a str,
    pub out: &'a str,
    pub names: GivenNames<'a>,
    /// The weeks that are shown; if none are given, everything is.
    pub weeks: Option<GivenWeeks<'a>>,
    /// The older solution since which changes are shown.
    pub older: Option<&'a str>,
    /// The wishes that the timetables keep of which the bound of the proofs holds.
    pub wishes: Option<&'a str>,
    pub proofs: Vec<&'a str>,
    pub showing: Showing,
}

/// The option of the names of the days.
pub const DAYS: Argument<'static> = Argument {
    id: "days",
    form: Form::Value("NAMES"),
    help: "The names of the days, as Mon,Tue,Wed,Thu,Fri; else Day 1, Day 2 and so on",
    condition: None,
};

/// The option of the names of the periods of a day.
pub const PERIODS: Argument<'static> = Argument {
    id: "periods",
    form: Form::Value("NAMES"),
    help: "The names of the periods of a day, as 8:00,9:00; else numbers from 1",
    condition: None,
};

/// The words for the parts of a page that may be shown alone.
const PART_WORDS: [&'static str; 4] = ["rooms", "teachers", "curricula", "days"];

/// The option that leaves out all but one part.
const ONLY: Argument<'static> = Argument {
    id: "only",
    form: Form::Choice("PART", &PART_WORDS),
    help: "Shows these weeks and no more, without counts, as sheets to hand out",
    condition: Some(Condition::ConflictsWith(&["week", "older", "proof"])),
};

/// The option that leaves out all but the weeks of one name.
const WEEK: Argument<'static> = Argument {
    id: "week",
    form: Form::Value("NAME"),
    help: "Shows the weeks of the room, the teacher and the curriculum of this name and no more, as a sheet to hand out; --week=NAME if it begins with a hyphen",
    condition: Some(Condition::ConflictsWith(&["only", "older", "proof"])),
};

/// The option of the solution with which the page compares.
const OLDER: Argument<'static> = Argument {
    id: "older",
    form: Form::Value("OLDER"),
    help: "Marks each lecture that moved since this older solution, and lists them all at the head of the page",
    condition: Some(Condition::ConflictsWith(&["only", "week", "wishes"])),
};

/// The option of the proofs whose bound is shown; it may be given more than once.
const PROOFS: Argument<'static> = Argument {
    id: "proof",
    form: Form::Values("PROOF"),
    help: "A proof of a lower bound, as `tt sum` takes them; given more than once, they add up, and the page shows their bound",
    condition: None,
};

/// The option of the wishes under which the proofs hold.
const KEPT: Argument<'static> = Argument {
    id: "wishes",
    form: Form::Value("WISHES"),
    help: "Wishes: the bound of the proofs holds of the timetables that keep them, and the page says so",
    condition: Some(Condition::Requires(&["proof"])),
};

/// The command `page`.
pub const PAGE: Description<'static> = Description {
    name: "page",
    about: "Writes a page of HTML that shows the weeks of a solution, and what it costs where",
    example: "Example: tt page week.ctt week.sol week.html --days Mon,Tue,Wed,Thu,Fri --proof groups.proof --proof rooms.proof",
    arguments: &[
        INSTANCE, SOLUTION, OUT, DAYS, PERIODS, ONLY, WEEK, OLDER, PROOFS, KEPT, PROGRESS, QUIET,
    ],
};

/// Returns the names given for a page.
pub fn names_of<'a>(found: &ArgMatches<'a>) -> GivenNames<'a> {
    GivenNames {
        days: found.get_str("days"),
        periods: found.get_str("periods"),
    }
}

/// Returns the part of a page that a word names.
fn part_of(word: &str) -> Option<GivenWeeks<'static>> {
    if word == "rooms" {
        Some(GivenWeeks::Section(By::Room))
    } else if word == "teachers" {
        Some(GivenWeeks::Section(By::Teacher))
    } else if word == "curricula" {
        Some(GivenWeeks::Section(By::Curriculum))
    } else if word == "days" {
        Some(GivenWeeks::Days)
    } else {
        None
    }
}

/// Returns the weeks given for a page.
fn weeks_of<'a>(found: &ArgMatches<'a>) -> Option<GivenWeeks<'a>> {
    if let Some(name) = found.get_str("week") {
        return Some(GivenWeeks::Named(name));
    }
    part_of(found.get_str("only")?)
}

/// Returns the options given for `page`, with its proofs.
fn page_with<'a>(found: &ArgMatches<'a>, proofs: Vec<&'a str>) -> Option<Request<'a>> {
    Some(Request::Page(PageRequest {
        instance: found.get_str("INSTANCE")?,
        solution: found.get_str("SOLUTION")?,
        out: found.get_str("OUT")?,
        names: names_of(found),
        weeks: weeks_of(found),
        older: found.get_str("older"),
        wishes: found.get_str("wishes"),
        proofs,
        showing: showing_of(found),
    }))
}

/// Returns the options given for `page`.
pub fn page_request<'a>(
    alloc: Global,
    found: &ArgMatches<'a>,
) -> Result<Option<Request<'a>>, AllocError> {
    Ok(page_with(found, words_of(alloc, found, "proof")?))
}
