//! The commands that check files: `validate`, `check`, `bound` and `upgrade`.

use crate::arguments::Request;
use crate::description::Description;
use crate::files::{INSTANCE, JSON, OUT, PROOF, SOLUTION, TimetableFiles, WISHES};
use crate::showing::{PROGRESS, QUIET, Showing, showing_of};
use clap::ArgMatches;

/// The files of `validate`, and whether it prints JSON.
#[derive(Clone, Copy, Debug)]
pub struct ValidateRequest<'a> {
    pub files: TimetableFiles<'a>,
    pub wishes: Option<&'a str>,
    pub is_json: bool,
}

/// The files and options of `check`.
#[derive(Clone, Copy, Debug)]
pub struct CheckRequest<'a> {
    pub instance: &'a str,
    pub solution: &'a str,
    pub proof: &'a str,
    pub wishes: Option<&'a str>,
    pub showing: Showing,
}

/// The files and options of `bound`.
#[derive(Clone, Copy, Debug)]
pub struct BoundRequest<'a> {
    pub instance: &'a str,
    pub proof: &'a str,
    pub wishes: Option<&'a str>,
    pub showing: Showing,
}

/// The files and options of `upgrade`.
#[derive(Clone, Copy, Debug)]
pub struct UpgradeRequest<'a> {
    pub instance: &'a str,
    pub proof: &'a str,
    pub out: &'a str,
    pub showing: Showing,
}

/// The command `validate`.
pub const VALIDATE: Description<'static> = Description {
    name: "validate",
    about: "Prints the eight counts of a solution",
    example: "Example: tt validate week.ctt week.sol",
    arguments: &[INSTANCE, SOLUTION, WISHES, JSON, PROGRESS, QUIET],
};

/// The command `check`.
pub const CHECK: Description<'static> = Description {
    name: "check",
    about: "Checks a solution, and a proof of a lower bound",
    example: "Example: tt check week.ctt week.sol week.proof",
    arguments: &[INSTANCE, SOLUTION, PROOF, WISHES, PROGRESS, QUIET],
};

/// The command `bound`.
pub const BOUND: Description<'static> = Description {
    name: "bound",
    about: "Checks a proof of a lower bound, and prints the bound",
    example: "Example: tt bound week.ctt week.proof",
    arguments: &[INSTANCE, PROOF, WISHES, PROGRESS, QUIET],
};

/// The command `upgrade`.
pub const UPGRADE: Description<'static> = Description {
    name: "upgrade",
    about: "Checks a proof, and writes it in version 2",
    example: "Example: tt upgrade week.ctt old.proof new.proof",
    arguments: &[INSTANCE, PROOF, OUT, PROGRESS, QUIET],
};

/// Returns the options given for `validate`.
pub fn validate_request<'a>(found: &ArgMatches<'a>) -> Option<Request<'a>> {
    let files = TimetableFiles {
        instance: found.get_str("INSTANCE")?,
        solution: found.get_str("SOLUTION")?,
    };
    Some(Request::Validate(ValidateRequest {
        files,
        wishes: found.get_str("wishes"),
        is_json: found.get_flag("json"),
    }))
}

/// Returns the options given for `check`.
pub fn check_request<'a>(found: &ArgMatches<'a>) -> Option<Request<'a>> {
    Some(Request::Check(CheckRequest {
        instance: found.get_str("INSTANCE")?,
        solution: found.get_str("SOLUTION")?,
        proof: found.get_str("PROOF")?,
        wishes: found.get_str("wishes"),
        showing: showing_of(found),
    }))
}

/// Returns the options given for `bound`.
pub fn bound_request<'a>(found: &ArgMatches<'a>) -> Option<Request<'a>> {
    Some(Request::Bound(BoundRequest {
        instance: found.get_str("INSTANCE")?,
        proof: found.get_str("PROOF")?,
        wishes: found.get_str("wishes"),
        showing: showing_of(found),
    }))
}

/// Returns the options given for `upgrade`.
pub fn upgrade_request<'a>(found: &ArgMatches<'a>) -> Option<Request<'a>> {
    Some(Request::Upgrade(UpgradeRequest {
        instance: found.get_str("INSTANCE")?,
        proof: found.get_str("PROOF")?,
        out: found.get_str("OUT")?,
        showing: showing_of(found),
    }))
}
