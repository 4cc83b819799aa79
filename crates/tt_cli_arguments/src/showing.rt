//! The options that control whether a command shows its progress.

use crate::description::{Argument, Form};
use clap::ArgMatches;

/// The condition under which a command shows its progress on standard error.
#[derive(Clone, Copy, Debug, PartialEq, Eq)]
pub enum Showing {
    IfTerminal,
    Always,
    Never,
}

/// The option that shows the progress also if standard error is no terminal.
pub const PROGRESS: Argument<'static> = Argument {
    id: "progress",
    form: Form::Flag,
    help: "Shows how far the work is also where standard error is no terminal",
    condition: None,
};

/// The option that never shows the progress.
pub const QUIET: Argument<'static> = Argument {
    id: "quiet",
    form: Form::Flag,
    help: "Never shows how far the work is",
    condition: None,
};

/// Returns the choice that the options make; `--quiet` takes precedence.
pub fn showing_of(found: &ArgMatches<'_>) -> Showing {
    if found.get_flag("quiet") {
        Showing::Never
    } else if found.get_flag("progress") {
        Showing::Always
    } else {
        Showing::IfTerminal
    }
}
