//! The program `tt`: passes the words of its command line to `tt_cli::run`.
#![tactic(auto)]

use std::io::{ErrorKind, Write};
use std::process::ExitCode;
use std::rt::{Env, Files};
use std::{env, fs, io};
use tt_call_answers::AppFault;

/// A folder that every system has.
const ROOT: &str = "/";

/// Opens a folder three times. A file that is opened gets the lowest number that is free, so these get the numbers of the standard streams that
/// are closed, and no file of a command gets what is printed. Nothing can be read from them or written to them.
fn hold_numbers<R: Files>(rt: &R) -> [Option<R::File>; 3] {
    let open = || fs::open(rt, ROOT).ok();
    [open(), open(), open()]
}

/// Returns the words of the command line, without the program's own name.
fn words<R: Env + AllocGlobal>(rt: &R) -> io::Result<Vec<String>> {
    let mut words = Vec::new(rt.alloc());
    for word in env::args(rt)?.skip(1) {
        words.push(word)?;
    }
    Ok(words)
}

/// Prints why there are no words, and returns the status.
fn refused<E: Write>(fault: io::Error, err: &mut E) -> u8 {
    let _ = match fault.kind() {
        ErrorKind::OutOfMemory => writeln!(err, "refused: {}", AppFault::OutOfMemory),
        _ => writeln!(err, "error: a word is not UTF-8"),
    };
    2
}

fn main(rt: HostRuntime) -> ExitCode {
    let held = hold_numbers(&rt);
    let status = match words(&rt) {
        Ok(words) => tt_cli::run(&rt, &words, &mut rt.stdout(), &mut rt.stderr()),
        Err(fault) => refused(fault, &mut rt.stderr()),
    };
    drop(held);
    ExitCode::from(status)
}
