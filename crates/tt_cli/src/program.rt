//! The program: arguments in, texts and an exit status out.

use clap::error::ErrorKind;
use std::io::Write;
use tt_cli_arguments::{Request, parse_arguments};
use tt_cli_best::answer_best;
use tt_cli_checks::{
    answer_bound, answer_calendar, answer_changes, answer_check, answer_inspect, answer_page,
    answer_stored, answer_sum, answer_table, answer_upgrade, answer_validate, report_to,
};
use tt_cli_files::{Printed, Rescued, StandardStream, Unwritten, Whereabouts, WriteFault};
use tt_cli_progress::World;
use tt_cli_saving::{CommandFault, Reply};
use tt_cli_searches::{answer_improve, answer_parts, answer_solve};

/// The exit status of a refusal.
const REFUSED: u8 = 2;

/// Prints results that are in no file to standard output.
fn print_rescued<O: Write>(rescued: &mut [Rescued], out: &mut O) {
    for result in rescued {
        if let Whereabouts::Text(text) = &result.whereabouts
            && out.write_all(text).is_err()
        {
            result.whereabouts = Whereabouts::Lost;
        }
    }
}

/// Prints a refusal, after the results that are in no file, and returns its status.
fn print_refusal<O: Write, E: Write>(mut fault: CommandFault, out: &mut O, err: &mut E) -> u8 {
    if let CommandFault::Write(
        WriteFault::Unwritten(
            Unwritten {
                rescued: Some(rescued),
                ..
            },
        ),
    ) = &mut fault
    {
        print_rescued(rescued, out);
    }
    let _ = writeln!(err, "refused: {fault}");
    REFUSED
}

/// Prints the texts of a reply, and returns the status.
fn print_reply<O: Write, E: Write>(reply: Reply, out: &mut O, err: &mut E) -> u8 {
    let Reply { status, texts } = reply;
    for Printed { stream, text } in texts {
        let printed = match stream {
            StandardStream::Output => out.write_all(&text),
            StandardStream::Error => err.write_all(&text),
        };
        if let Err(reason) = printed {
            let fault = CommandFault::Write(WriteFault::Unprinted(reason));
            return print_refusal(fault, out, err);
        }
    }
    status
}

/// Returns the reply of a command.
fn reply_to<R: World, O: Write, E: Write>(
    rt: &R,
    request: &Request<'_>,
    out: &mut O,
    err: &mut E,
) -> Result<Reply, CommandFault> {
    match request {
        Request::Validate(request) => answer_validate(rt, err, *request),
        Request::Inspect(request) => answer_inspect(rt, *request),
        Request::Page(request) => answer_page(rt, out, err, request),
        Request::Check(request) => answer_check(rt, err, *request),
        Request::Bound(request) => answer_bound(rt, err, *request),
        Request::Sum(request) => answer_sum(rt, err, request),
        Request::Improve(request) => answer_improve(rt, err, *request),
        Request::Upgrade(request) => answer_upgrade(rt, err, *request),
        Request::Solve(request) => answer_solve(rt, err, *request),
        Request::Parts(request) => answer_parts(rt, err, *request),
        Request::Best(request) => answer_best(rt, err, *request),
        Request::Report(request) => { Ok(Reply::silent(rt.alloc(), report_to(rt, *request, out)?)) }
        Request::Table(request) => answer_table(rt, *request),
        Request::Changes(request) => answer_changes(rt, *request),
        Request::Calendar(request) => answer_calendar(rt, *request),
    }
}

/// Prints a reply or a refusal, and returns the status.
fn print_answer<O: Write, E: Write>(
    reply: Result<Reply, CommandFault>,
    out: &mut O,
    err: &mut E,
) -> u8 {
    match reply {
        Ok(reply) => print_reply(reply, out, err),
        Err(fault) => print_refusal(fault, out, err),
    }
}

/// Prints clap's message about arguments that it refuses, or its help.
fn print_clap_message<O: Write, E: Write>(fault: &clap::Error, out: &mut O, err: &mut E) -> u8 {
    if fault.kind() == ErrorKind::OutOfMemory {
        return print_refusal(CommandFault::OutOfMemory, out, err);
    }
    if fault.use_stderr() {
        let _ = write!(err, "{fault}");
        return REFUSED;
    }
    match write!(out, "{fault}") {
        Ok(()) => 0,
        Err(reason) => {
            let fault = CommandFault::Write(WriteFault::Unprinted(reason));
            print_refusal(fault, out, err)
        }
    }
}

/// Runs the program on its arguments, without its own name, and returns its exit status: 0 means yes, or that the work is
/// done; 1 means that a hard rule is broken, or that there is no timetable; 2 means that it refused (the reason is on `err`). Without
/// arguments it checks a stored proof.
pub fn run<R: World, O: Write, E: Write>(
    rt: &R,
    arguments: &[String],
    out: &mut O,
    err: &mut E,
) -> u8 {
    if arguments.is_empty() {
        return print_answer(answer_stored(rt), out, err);
    }
    match parse_arguments(rt.alloc(), arguments) {
        Ok(Some(request)) => print_answer(reply_to(rt, &request, out, err), out, err),
        Ok(None) => REFUSED,
        Err(fault) => print_clap_message(&fault, out, err),
    }
}
