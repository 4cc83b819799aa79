//! The command `inspect`.

use crate::arguments::Request;
use crate::description::{Argument, Description, Form};
use crate::files::{INSTANCE, JSON};
use crate::showing::{PROGRESS, QUIET};
use clap::ArgMatches;

/// The files of `inspect`, and whether it prints JSON.
#[derive(Clone, Copy, Debug)]
pub struct InspectRequest<'a> {
    pub instance: &'a str,
    pub solution: Option<&'a str>,
    pub is_json: bool,
}

const SOLUTION: Argument<'static> = Argument {
    id: "SOLUTION",
    form: Form::OptionalWord,
    help: "A timetable of it: what it breaks and costs is printed too",
    condition: None,
};

/// The command `inspect`.
pub const INSPECT: Description<'static> = Description {
    name: "inspect",
    about: "Says what is in an instance, what can't be, and why a file is refused",
    example: "Example: tt inspect week.ctt week.sol",
    arguments: &[INSTANCE, SOLUTION, JSON, PROGRESS, QUIET],
};

/// Returns the options given for `inspect`.
pub fn inspect_request<'a>(found: &ArgMatches<'a>) -> Option<Request<'a>> {
    Some(Request::Inspect(InspectRequest {
        instance: found.get_str("INSTANCE")?,
        solution: found.get_str("SOLUTION"),
        is_json: found.get_flag("json"),
    }))
}
