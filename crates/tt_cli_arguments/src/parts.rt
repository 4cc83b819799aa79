//! The command `parts`.

use crate::arguments::Request;
use crate::description::{Argument, Description, Form, Range};
use crate::files::INSTANCE;
use crate::searches::{SEED, TIME, nodes_of};
use crate::showing::{PROGRESS, QUIET, Showing, showing_of};
use clap::ArgMatches;

/// The maximum number of nodes that a search for parts may use.
const MAX_PARTS_NODES: u64 = 1_000_000;

/// How `parts` searches, and whether the proofs are written on the way.
#[derive(Clone, Copy, Debug)]
pub struct PartSearch {
    pub seed: u64,
    /// The maximum number of nodes, each of which counts for 50,000 relaxations.
    pub nodes: u32,
    /// The maximum number of seconds.
    pub seconds: Option<u64>,
    pub keeps: bool,
}

/// The files and options of `parts`.
#[derive(Clone, Copy, Debug)]
pub struct PartsRequest<'a> {
    pub instance: &'a str,
    pub folder: &'a str,
    /// The timetable that guides the search.
    pub solution: Option<&'a str>,
    pub search: PartSearch,
    pub showing: Showing,
}

const FOLDER: Argument<'static> = Argument {
    id: "OUTDIR",
    form: Form::Word,
    help: "The folder of groups.proof, prices.proof and rooms.proof; it is made if it isn't there, and older files of these names are replaced, or get names that end in .old",
    condition: None,
};

const NODES: Argument<'static> = Argument {
    id: "nodes",
    form: Form::Number(Range {
        least: 1,
        most: MAX_PARTS_NODES,
        default: Some("100000"),
    }),
    help: "How long to search at most, 1 to 1000000; each stands for 50,000 relaxations",
    condition: None,
};

const KEEP: Argument<'static> = Argument {
    id: "keep",
    form: Form::Flag,
    help: "Writes the proofs so far to their files while the search goes on, once a second at most",
    condition: None,
};

const GUIDE: Argument<'static> = Argument {
    id: "solution",
    form: Form::Value("SOLUTION"),
    help: "A timetable that guides the search: no group is worth more than it costs there",
    condition: None,
};

/// The command `parts`.
pub const PARTS: Description<'static> = Description {
    name: "parts",
    about: "Searches for proofs of lower bounds that add up, and writes them",
    example: "Example: tt parts week.ctt proofs --solution week.sol --nodes 300000",
    arguments: &[
        INSTANCE, FOLDER, GUIDE, SEED, NODES, TIME, KEEP, PROGRESS, QUIET,
    ],
};

/// Returns the search given for `parts`.
fn part_search(found: &ArgMatches<'_>) -> Option<PartSearch> {
    Some(PartSearch {
        seed: found.get_one("seed")?,
        nodes: nodes_of(found)?,
        seconds: found.get_one("time"),
        keeps: found.get_flag("keep"),
    })
}

/// Returns the options given for `parts`.
pub fn parts_request<'a>(found: &ArgMatches<'a>) -> Option<Request<'a>> {
    Some(Request::Parts(PartsRequest {
        instance: found.get_str("INSTANCE")?,
        folder: found.get_str("OUTDIR")?,
        solution: found.get_str("solution"),
        search: part_search(found)?,
        showing: showing_of(found),
    }))
}
