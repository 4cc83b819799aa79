//! The command `sum`.

use crate::arguments::Request;
use crate::description::{Argument, Description, Form};
use crate::files::{INSTANCE, WISHES};
use crate::showing::{PROGRESS, QUIET, Showing, showing_of};
use clap::ArgMatches;
use std::alloc::{AllocError, Global};

/// The files and options of `sum`.
#[derive(Drop)]
pub struct SumRequest<'a> {
    pub instance: &'a str,
    pub solution: Option<&'a str>,
    pub wishes: Option<&'a str>,
    pub proofs: Vec<&'a str>,
    pub showing: Showing,
}

const SOLUTION: Argument<'static> = Argument {
    id: "solution",
    form: Form::Value("SOLUTION"),
    help: "A timetable that is checked too: it is reported what it costs, and whether that is the bound",
    condition: None,
};

const PROOFS: Argument<'static> = Argument {
    id: "PROOF",
    form: Form::Words,
    help: "Proofs of lower bounds, no two of which claim one target: tree proofs (CTTP) and files of groups (CTTG), each of either version",
    condition: None,
};

/// The command `sum`.
pub const SUM: Description<'static> = Description {
    name: "sum",
    about: "Checks proofs of lower bounds that add up, and prints their sum",
    example: "Example: tt sum week.ctt --solution week.sol groups.proof rooms.proof",
    arguments: &[INSTANCE, SOLUTION, WISHES, PROOFS, PROGRESS, QUIET],
};

/// Returns the words given for an argument.
pub fn words_of<'a>(
    alloc: Global,
    found: &ArgMatches<'a>,
    id: &str,
) -> Result<Vec<&'a str>, AllocError> {
    match found.get_strs(id) {
        Some(words) => Vec::from_slice(alloc, words),
        None => Ok(Vec::new(alloc)),
    }
}

/// Returns the options given for `sum`.
pub fn sum_request<'a>(
    alloc: Global,
    found: &ArgMatches<'a>,
) -> Result<Option<Request<'a>>, AllocError> {
    let Some(instance) = found.get_str("INSTANCE") else {
        return Ok(None);
    };
    Ok(Some(Request::Sum(SumRequest {
        instance,
        solution: found.get_str("solution"),
        wishes: found.get_str("wishes"),
        proofs: words_of(alloc, found, "PROOF")?,
        showing: showing_of(found),
    })))
}
