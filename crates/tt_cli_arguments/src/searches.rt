//! The commands that search from one timetable or in one tree: `improve` and `solve`.

use crate::arguments::Request;
use crate::description::{Argument, Condition, Description, Form, Range};
use crate::files::{INSTANCE, OUT, SOLUTION};
use crate::showing::{PROGRESS, QUIET, Showing, showing_of};
use clap::ArgMatches;

/// The maximum number of steps of a search.
const MAX_STEPS: u64 = 1_000_000_000;

/// The maximum number of runs of a search.
const MAX_RUNS: u64 = 1_000;

/// The maximum number of seconds of a search.
const MAX_SECONDS: u64 = 1_000_000;

/// The maximum price of a lecture that leaves its place.
const MAX_STAY: u64 = 1_000_000;

/// How `improve` searches.
#[derive(Clone, Copy, Debug)]
pub struct Search {
    pub seed: u64,
    /// The number of steps of each run.
    pub steps: u64,
    pub runs: u64,
    /// The maximum number of seconds.
    pub seconds: Option<u64>,
    /// Whether the best timetable is written on the way.
    pub keeps: bool,
    /// Whether the lectures that the solution lacks are added first.
    pub completes: bool,
    /// Whether the entries that the instance doesn't have are left out before that.
    pub drops: bool,
    /// The price of a lecture that leaves its period in the solution, if lectures have one.
    pub stay: Option<u32>,
}

/// The files and options of `improve`.
#[derive(Clone, Copy, Debug)]
pub struct ImproveRequest<'a> {
    pub instance: &'a str,
    pub solution: &'a str,
    pub out: &'a str,
    /// What the timetable is to keep besides the hard rules, if that is given.
    pub wishes: Option<&'a str>,
    pub search: Search,
    pub showing: Showing,
}

/// The maximum number of nodes of a tree that a search opens.
pub const MAX_SOLVE_NODES: u32 = 65_536;

/// How `solve` searches.
#[derive(Clone, Copy, Debug)]
pub struct TreeSearch {
    pub seed: u64,
    /// The maximum number of nodes that are opened, 1 to MAX_SOLVE_NODES.
    pub nodes: u32,
    /// The maximum number of seconds.
    pub seconds: Option<u64>,
    /// Whether the best timetable and the proof are written on the way.
    pub keeps: bool,
}

/// The files and options of `solve`.
#[derive(Clone, Copy, Debug)]
pub struct SolveRequest<'a> {
    pub instance: &'a str,
    pub out: &'a str,
    pub proof: &'a str,
    /// What the timetable is to keep besides the hard rules, if that is given.
    pub wishes: Option<&'a str>,
    pub search: TreeSearch,
    pub showing: Showing,
}

/// The option of the seed for the drawn steps.
pub const SEED: Argument<'static> = Argument {
    id: "seed",
    form: Form::Number(Range {
        least: 0,
        most: u64::MAX,
        default: Some("1"),
    }),
    help: "Begins the drawn steps: the same number gives the same answer, 0 to 2^64 - 1",
    condition: None,
};

const STEPS: Argument<'static> = Argument {
    id: "steps",
    form: Form::Number(Range {
        least: 0,
        most: MAX_STEPS,
        default: Some("10000"),
    }),
    help: "How long to search, 0 to 1000000000 steps",
    condition: None,
};

const RUNS: Argument<'static> = Argument {
    id: "runs",
    form: Form::Number(Range {
        least: 1,
        most: MAX_RUNS,
        default: Some("1"),
    }),
    help: "How many searches to make, 1 to 1000, each from the best timetable so far, with the seed counted up",
    condition: None,
};

const NODES: Argument<'static> = Argument {
    id: "nodes",
    form: Form::Number(Range {
        least: 1,
        most: MAX_SOLVE_NODES as u64,
        default: Some("1000"),
    }),
    help: "How many nodes of the tree to open at most, 1 to 65536",
    condition: None,
};

/// The option that limits the time of a search.
pub const TIME: Argument<'static> = Argument {
    id: "time",
    form: Form::Number(Range {
        least: 1,
        most: MAX_SECONDS,
        default: None,
    }),
    help: "How many seconds to search at most, 1 to 1000000; then what was found is written as ever",
    condition: None,
};

/// The option that saves the best timetable while a search runs.
const KEEP: Argument<'static> = Argument {
    id: "keep",
    form: Form::Flag,
    help: "Writes the best timetable so far to OUT while the search goes on, once a second at most",
    condition: None,
};

/// The option that saves the best timetable and the proof while a tree is searched.
const KEEP_BOTH: Argument<'static> = Argument {
    id: "keep",
    form: Form::Flag,
    help: "Writes the best timetable and the proof so far to OUT and PROOF while the search goes on, once a second at most",
    condition: None,
};

/// The option that completes a solution before a search.
const COMPLETE: Argument<'static> = Argument {
    id: "complete",
    form: Form::Flag,
    help: "Adds the lectures that the solution lacks first; it may be empty",
    condition: None,
};

/// The option that drops entries before a solution is completed.
const DROP: Argument<'static> = Argument {
    id: "drop",
    form: Form::Flag,
    help: "Leaves out and lists unknown courses, rooms and periods, and surplus lectures, before --complete",
    condition: Some(Condition::Requires(&["complete"])),
};

/// The option that prices the lectures which leave their places.
const STAY: Argument<'static> = Argument {
    id: "stay",
    form: Form::Number(Range {
        least: 0,
        most: MAX_STAY,
        default: None,
    }),
    help: "Adds a price for each lecture that leaves its period in the solution, 0 to 1000000, and a fifth if it only leaves its room",
    condition: Some(Condition::ConflictsWith(&["keep"])),
};

/// What the timetable is to keep besides the hard rules.
const KEPT_WISHES: Argument<'static> = Argument {
    id: "wishes",
    form: Form::Value("WISHES"),
    help: "What the timetable is to keep besides the hard rules, as validate takes it; a broken wish counts as a broken hard rule",
    condition: Some(Condition::ConflictsWith(&["keep"])),
};

/// What the timetable is to keep besides the hard rules, where only one that keeps all of it counts as found.
pub const ALL_KEPT: Argument<'static> = Argument {
    id: "wishes",
    form: Form::Value("WISHES"),
    help: "What the timetable is to keep besides the hard rules, as validate takes it; only one that keeps all of it counts as found, and the bound is one of these",
    condition: None,
};

/// The proof that is written.
const NEW_PROOF: Argument<'static> = Argument {
    id: "PROOF",
    form: Form::Word,
    help: "The proof that is written, after OUT; an older one is replaced",
    condition: None,
};

/// The command `improve`.
pub const IMPROVE: Description<'static> = Description {
    name: "improve",
    about: "Searches from a solution, and writes a timetable that is no worse",
    example: "Example: tt improve week.ctt week.sol better.sol --steps 100000",
    arguments: &[
        INSTANCE,
        SOLUTION,
        OUT,
        SEED,
        STEPS,
        RUNS,
        TIME,
        KEEP,
        COMPLETE,
        DROP,
        STAY,
        KEPT_WISHES,
        PROGRESS,
        QUIET,
    ],
};

/// The command `solve`.
pub const SOLVE: Description<'static> = Description {
    name: "solve",
    about: "Searches for a best timetable, and writes it with a proof of a lower bound",
    example: "Example: tt solve week.ctt week.sol week.proof --nodes 5000",
    arguments: &[
        INSTANCE, OUT, NEW_PROOF, ALL_KEPT, SEED, NODES, TIME, KEEP_BOTH, PROGRESS, QUIET,
    ],
};

/// Returns the price given for a lecture that leaves its place, if there is one.
fn stay_of(found: &ArgMatches<'_>) -> Option<u32> {
    let price: u64 = found.get_one("stay")?;
    u32::try_from(price).ok()
}

/// Returns the search given for `improve`.
fn search_of(found: &ArgMatches<'_>) -> Option<Search> {
    Some(Search {
        seed: found.get_one("seed")?,
        steps: found.get_one("steps")?,
        runs: found.get_one("runs")?,
        seconds: found.get_one("time"),
        keeps: found.get_flag("keep"),
        completes: found.get_flag("complete"),
        drops: found.get_flag("drop"),
        stay: stay_of(found),
    })
}

/// Returns the options given for `improve`.
pub fn improve_request<'a>(found: &ArgMatches<'a>) -> Option<Request<'a>> {
    Some(Request::Improve(ImproveRequest {
        instance: found.get_str("INSTANCE")?,
        solution: found.get_str("SOLUTION")?,
        out: found.get_str("OUT")?,
        wishes: found.get_str("wishes"),
        search: search_of(found)?,
        showing: showing_of(found),
    }))
}

/// Returns the number of nodes that is given, or `None` if it does not fit in 32 bits.
pub fn nodes_of(found: &ArgMatches<'_>) -> Option<u32> {
    let nodes: u64 = found.get_one("nodes")?;
    u32::try_from(nodes).ok()
}

/// Returns the search given for `solve`.
fn tree_search(found: &ArgMatches<'_>) -> Option<TreeSearch> {
    Some(TreeSearch {
        seed: found.get_one("seed")?,
        nodes: nodes_of(found)?,
        seconds: found.get_one("time"),
        keeps: found.get_flag("keep"),
    })
}

/// Returns the options given for `solve`.
pub fn solve_request<'a>(found: &ArgMatches<'a>) -> Option<Request<'a>> {
    Some(Request::Solve(SolveRequest {
        instance: found.get_str("INSTANCE")?,
        out: found.get_str("OUT")?,
        proof: found.get_str("PROOF")?,
        wishes: found.get_str("wishes"),
        search: tree_search(found)?,
        showing: showing_of(found),
    }))
}
