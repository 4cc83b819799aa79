//! Parses the arguments of the command line.

use crate::best::{BEST, BestRequest, best_request};
use crate::checks::{
    BOUND, BoundRequest, CHECK, CheckRequest, UPGRADE, UpgradeRequest, VALIDATE, ValidateRequest,
    bound_request, check_request, upgrade_request, validate_request,
};
use crate::description::{Description, commands_of};
use crate::inspect::{INSPECT, InspectRequest, inspect_request};
use crate::pages::{PAGE, PageRequest, page_request};
use crate::parts::{PARTS, PartsRequest, parts_request};
use crate::reports::{
    CalendarRequest, ChangesRequest, REPORT, ReportRequest, TableRequest, report_request,
};
use crate::searches::{
    IMPROVE, ImproveRequest, SOLVE, SolveRequest, improve_request, solve_request,
};
use crate::sums::{SUM, SumRequest, sum_request};
use clap::{ArgMatches, Command, Error};
use std::alloc::{AllocError, Global};

/// The command of a command line, with its files and its options. Files are paths; a path that is `-` is a standard stream.
#[derive(Drop)]
pub enum Request<'a> {
    Validate(ValidateRequest<'a>),
    Inspect(InspectRequest<'a>),
    Page(PageRequest<'a>),
    Check(CheckRequest<'a>),
    Bound(BoundRequest<'a>),
    Sum(SumRequest<'a>),
    Improve(ImproveRequest<'a>),
    Upgrade(UpgradeRequest<'a>),
    Solve(SolveRequest<'a>),
    Parts(PartsRequest<'a>),
    Best(BestRequest<'a>),
    Report(ReportRequest<'a>),
    Table(TableRequest<'a>),
    Changes(ChangesRequest<'a>),
    Calendar(CalendarRequest<'a>),
}

/// The version, and the toolchain with which the program was proved, as `rt version` names it.
const VERSION: &str = "1.0 (rattle-kit-13f logic dac8208d650f15bf)";

/// The commands, in the order in which a user meets them.
const COMMANDS: [Description<'static>; 12] = [
    INSPECT, BEST, VALIDATE, PAGE, REPORT, IMPROVE, SOLVE, PARTS, CHECK, BOUND, SUM, UPGRADE,
];

/// Returns the program without its commands.
fn bare_program<'a>(alloc: Global) -> Command<'a> {
    Command::new(alloc, "tt")
        .about("Course timetables with proved bounds")
        .version(VERSION)
        .after_help(
            "Without a command: checks an instance, a solution and a proof that are built in. Why a file is refused, `tt inspect` explains.",
        )
        .no_binary_name(true)
        .subcommand_required(true)
}

/// Returns the program with its commands.
fn program<'a>(alloc: Global) -> Result<Command<'a>, AllocError> {
    let commands = commands_of(alloc, &COMMANDS)?;
    bare_program(alloc).subcommands(commands)?.bin_name("tt")
}

/// Returns the options given for a command that searches.
fn search_request<'a>(name: &str, found: &ArgMatches<'a>) -> Option<Request<'a>> {
    match name {
        "improve" => improve_request(found),
        "solve" => solve_request(found),
        "parts" => parts_request(found),
        "best" => best_request(found),
        _ => None,
    }
}

/// Returns the options given for a command that reads proofs, or for one that searches.
fn proof_request<'a>(
    alloc: Global,
    name: &str,
    found: &ArgMatches<'a>,
) -> Result<Option<Request<'a>>, AllocError> {
    match name {
        "sum" => sum_request(alloc, found),
        "check" => Ok(check_request(found)),
        "bound" => Ok(bound_request(found)),
        "upgrade" => Ok(upgrade_request(found)),
        _ => Ok(search_request(name, found)),
    }
}

/// Returns the options given for a command.
fn request_of<'a>(
    alloc: Global,
    name: &str,
    found: &ArgMatches<'a>,
) -> Result<Option<Request<'a>>, AllocError> {
    match name {
        "page" => page_request(alloc, found),
        "validate" => Ok(validate_request(found)),
        "inspect" => Ok(inspect_request(found)),
        "report" => Ok(report_request(found)),
        _ => proof_request(alloc, name, found),
    }
}

/// Returns the command that was given, with its options.
fn request_in<'a>(
    alloc: Global,
    matches: &ArgMatches<'a>,
) -> Result<Option<Request<'a>>, AllocError> {
    match matches.subcommand() {
        Some((name, found)) => request_of(alloc, name, found),
        None => Ok(None),
    }
}

/// Returns the command and options that the arguments give; never `None` for arguments that the command accepts.
pub fn parse_arguments<'a>(
    alloc: Global,
    words: &'a [String],
) -> Result<Option<Request<'a>>, Error> {
    let matches = program(alloc)?.try_get_matches_from(words)?;
    Ok(request_in(alloc, &matches)?)
}
