//! Scenarios that are played: files in memory, runs of the program over them, and what is expected of both, as text.
//!
//! A line that begins with `#` is a comment, and an empty line says nothing. Every other line is a step, but for the lines of a block, which
//! follow their step: each is `| ` and a line of text (`|` alone is an empty line), or after `edit` one that begins with `-` or `+`. A line `\`
//! after a block takes its last line feed away.
//!
//! - `scenario NAME` begins a scenario: no files, nothing is refused, and the clock stands still.
//! - `put FILE` and a block puts the block into a file. `put FILE MINI` puts a sample, `put FILE 3 times` the block three times, `put FILE crlf` the
//!   block with carriage returns. `add FILE ..` adds such a text at the file's end.
//! - `edit FILE` replaces the lines of the block that begin with `-`, where they stand first, by those that begin with `+`.
//! - `refuse new files`, `refuse writes`, `refuse renames` or `refuse nothing`, `fail FILE 2` (its second read fails) and `tick 250` (the clock moves
//!   so many milliseconds each time that it is read) hold from then on.
//! - `run WORDS` runs the program. A word in single quotes may be empty or have spaces. The run is to end with the status 0 and to print nothing,
//!   but for what the steps after it say: `status 2`, `out ..`, `err ..`.
//! - `file FILE ..` expects a file, `same FILE FILE` two with one text, `no FILE` that there is none, `files 3` so many in all.
//!
//! What is expected of `out`, `err` or a file is its block, or a block with `crlf`, or one of: `nothing`, `some`, `any`, `is MINI` (a sample), `has ..`,
//! `lacks ..`, `begins ..`, `ends ..` (with a line feed after it), each with words or a block, and `lines 3`.

use crate::script::{Step, steps_of};
use crate::stage::Stage;
use std::alloc::Global;
use std::test::Fail;

/// Returns the error that something came in place of what a step expects.
fn otherwise(step: &Step<'_>, came: &str) -> Fail {
    let (number, line) = (step.number, step.line);
    Fail::new(format_args!("line {number}: {line}: {came:.300}"))
}

/// Plays the scenarios of a text, and returns their number. An error names the first step that went otherwise, by its line, and what came
/// instead.
pub fn play(alloc: Global, text: &str) -> Result<usize, Fail> {
    let steps = steps_of(alloc, text)?;
    let mut stage = Stage::new(alloc);
    let mut count = 0usize;
    for step in &steps {
        let came = if step.line.starts_with("scenario ") {
            let came = stage.end_run()?;
            stage = Stage::new(alloc);
            count = count.saturating_add(1);
            came
        } else {
            stage.take(step)?
        };
        if let Some(came) = came {
            return Err(otherwise(step, &came));
        }
    }
    match (steps.last(), stage.end_run()?) {
        (Some(step), Some(came)) => Err(otherwise(step, &came)),
        _ => Ok(count),
    }
}
