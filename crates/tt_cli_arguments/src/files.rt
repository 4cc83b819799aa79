//! The arguments of files that several commands have.

use crate::description::{Argument, Form};

/// An instance and a solution.
#[derive(Clone, Copy, Debug)]
pub struct TimetableFiles<'a> {
    pub instance: &'a str,
    pub solution: &'a str,
}

/// The instance.
pub const INSTANCE: Argument<'static> = Argument {
    id: "INSTANCE",
    form: Form::Word,
    help: "What there is to plan: a .ctt file of the competition; - is standard input",
    condition: None,
};

/// The solution.
pub const SOLUTION: Argument<'static> = Argument {
    id: "SOLUTION",
    form: Form::Word,
    help: "A timetable: lines of a course, a room, a day and a period",
    condition: None,
};

/// A proof that is checked.
pub const PROOF: Argument<'static> = Argument {
    id: "PROOF",
    form: Form::Word,
    help: "A proof of a lower bound: a CTTP file, of either version",
    condition: None,
};

/// What a timetable is to keep besides the hard rules.
pub const WISHES: Argument<'static> = Argument {
    id: "wishes",
    form: Form::Value("WISHES"),
    help: "What the timetable is to keep besides the hard rules: lines of a lecture that stays, of a course's rooms, of what is closed",
    condition: None,
};

/// The option of JSON.
pub const JSON: Argument<'static> = Argument {
    id: "json",
    form: Form::Flag,
    help: "Prints one line of JSON in place of text",
    condition: None,
};

/// The file that is written.
pub const OUT: Argument<'static> = Argument {
    id: "OUT",
    form: Form::Word,
    help: "The file that is written; an older one is replaced, and - is standard output",
    condition: None,
};
