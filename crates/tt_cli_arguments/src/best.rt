//! The command `best`.

use crate::arguments::Request;
use crate::description::{Argument, Description, Form, Range};
use crate::files::INSTANCE;
use crate::pages::{DAYS, GivenNames, PERIODS, names_of};
use crate::searches::{ALL_KEPT, SEED, TIME};
use crate::showing::{PROGRESS, QUIET, Showing, showing_of};
use clap::ArgMatches;

/// The maximum number of rounds of a search.
const MAX_ROUNDS: u64 = 1_000;

/// How `best` searches, and whether it writes its results on the way.
#[derive(Clone, Copy, Debug)]
pub struct BestSearch {
    pub seed: u64,
    /// The maximum number of rounds.
    pub rounds: u64,
    /// The maximum number of seconds.
    pub seconds: Option<u64>,
    pub keeps: bool,
}

/// The files and options of `best`.
#[derive(Clone, Copy, Debug)]
pub struct BestRequest<'a> {
    pub instance: &'a str,
    pub folder: &'a str,
    /// The timetable from which the search begins.
    pub start: Option<&'a str>,
    /// What the timetable is to keep besides the hard rules, if that is given.
    pub wishes: Option<&'a str>,
    pub search: BestSearch,
    /// The names on the page.
    pub names: GivenNames<'a>,
    pub showing: Showing,
}

const FOLDER: Argument<'static> = Argument {
    id: "OUTDIR",
    form: Form::Word,
    help: "The folder of best.sol, page.html, groups.proof, prices.proof and tree.proof; it is made if it isn't there, and older files of these names are replaced, or get names that end in .old",
    condition: None,
};

const ROUNDS: Argument<'static> = Argument {
    id: "rounds",
    form: Form::Number(Range {
        least: 1,
        most: MAX_ROUNDS,
        default: Some("10"),
    }),
    help: "How long to search at most, 1 to 1000 rounds, each for a better timetable, and the 1st, 2nd, 3rd, 5th, 9th and so on for a greater bound too",
    condition: None,
};

const KEEP: Argument<'static> = Argument {
    id: "keep",
    form: Form::Flag,
    help: "Writes the best timetable, the proofs and the page so far to their files while the search goes on, once a second at most",
    condition: None,
};

const START: Argument<'static> = Argument {
    id: "from",
    form: Form::Value("SOLUTION"),
    help: "A timetable from which the search begins; it takes up the proofs in OUTDIR too, if they still hold",
    condition: None,
};

/// The command `best`.
pub const BEST: Description<'static> = Description {
    name: "best",
    about: "Searches for a best timetable and for proofs of a lower bound until they meet, and writes them with a page",
    example: "Example: tt best week.ctt week --rounds 20",
    arguments: &[
        INSTANCE, FOLDER, START, ALL_KEPT, SEED, ROUNDS, TIME, KEEP, DAYS, PERIODS, PROGRESS, QUIET,
    ],
};

/// Returns the search given for `best`.
fn best_search(found: &ArgMatches<'_>) -> Option<BestSearch> {
    Some(BestSearch {
        seed: found.get_one("seed")?,
        rounds: found.get_one("rounds")?,
        seconds: found.get_one("time"),
        keeps: found.get_flag("keep"),
    })
}

/// Returns the options given for `best`.
pub fn best_request<'a>(found: &ArgMatches<'a>) -> Option<Request<'a>> {
    Some(Request::Best(BestRequest {
        instance: found.get_str("INSTANCE")?,
        folder: found.get_str("OUTDIR")?,
        start: found.get_str("from"),
        wishes: found.get_str("wishes"),
        search: best_search(found)?,
        names: names_of(found),
        showing: showing_of(found),
    }))
}
