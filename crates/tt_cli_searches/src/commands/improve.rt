//! The files of `improve`.

use crate::dropping::drop_and_list;
use crate::near::{improve_priced, prices};
use std::alloc::Global;
use std::io::Write;
use tt_call_answers::Answer;
use tt_call_searches::{ImproveSearch, improve};
use tt_call_wishes::{Search as WishedSearch, WishedFiles, improve_under_wishes};
use tt_cli_arguments::{ImproveRequest, Search};
use tt_cli_files::{Batch, Role};
use tt_cli_progress::{Ticker, World, ticker_of};
use tt_cli_saving::{
    CommandFault, Input, Inputs, Keeper, NoShelf, Prepared, Reply, Target, kept_table,
    read_if_given, reply_with, show_clash,
};
use tt_watch::Watch;

/// The bytes of an instance, of the solution from which a search begins, and of wishes, if there are any.
#[derive(Clone, Copy)]
struct Start<'a> {
    instance: &'a [u8],
    solution: &'a [u8],
    wishes: Option<&'a [u8]>,
}

/// Improves a timetable under wishes.
fn improve_wished<W: Watch>(
    alloc: Global,
    start: Start<'_>,
    wishes: &[u8],
    search: Search,
    watch: &mut W,
) -> Result<Answer, CommandFault> {
    let files = WishedFiles {
        instance: start.instance,
        solution: start.solution,
        wishes,
    };
    let asked = WishedSearch {
        seed: search.seed,
        steps: search.steps,
        runs: search.runs,
        stay: prices(search.stay.unwrap_or(0)),
    };
    Ok(improve_under_wishes(alloc, files, asked, search.completes, watch)?)
}

/// Improves a timetable, shows the progress on standard error, and keeps timetables on the way if the options ask for it.
fn improve_shown<'k, R: World, E: Write>(
    rt: &'k R,
    ticker: &'k mut Ticker<'_, R, E>,
    start: Start<'k>,
    out: &'k mut Prepared<R::File>,
    search: Search,
) -> Result<Answer, CommandFault> {
    let table = kept_table(rt.alloc(), start.instance, out, search.keeps, false);
    let mut keeper = Keeper::new(rt, ticker, search.seconds, table, NoShelf, false);
    let alloc = rt.alloc();
    if let Some(wishes) = start.wishes {
        return improve_wished(alloc, start, wishes, search, &mut keeper);
    }
    if let Some(period) = search.stay {
        let Start {
            instance,
            solution,
            ..
        } = start;
        return Ok(improve_priced(alloc, instance, solution, search, period, &mut keeper)?);
    }
    let Search {
        seed,
        steps,
        runs,
        completes,
        ..
    } = search;
    let search = ImproveSearch {
        seed,
        steps,
        runs,
        completes,
    };
    Ok(improve(alloc, start.instance, start.solution, search, &mut keeper)?)
}

/// Returns the answer of `improve`, once the timetable is in its file.
pub fn answer_improve<R: World, E: Write>(
    rt: &R,
    err: &mut E,
    request: ImproveRequest<'_>,
) -> Result<Reply, CommandFault> {
    let mut inputs = Inputs::new(rt.alloc());
    let instance = inputs.add(Input::Instance, request.instance)?;
    let solution = inputs.add(Input::Solution, request.solution)?;
    let wishes = inputs.add_given(Input::Wishes, request.wishes)?;
    let target = Target {
        role: Role::Solution,
        path: request.out,
    };
    let out = target.find(rt, &inputs)?;
    let instance = instance.read(rt)?;
    let mut solution = solution.read(rt)?;
    let wishes = read_if_given(rt, wishes)?;
    let mut out = out.prepare(rt)?;
    if request.search.drops {
        solution = drop_and_list(rt.alloc(), err, &instance, &solution)?;
    }
    if let Some(wishes) = &wishes {
        show_clash(rt.alloc(), err, &instance, wishes)?;
    }
    let start = Start {
        instance: &instance,
        solution: &solution,
        wishes: wishes.as_ref().map(|wishes| wishes.as_slice()),
    };
    let mut ticker = ticker_of(rt, err, "improve", request.showing);
    let answer = improve_shown(rt, &mut ticker, start, &mut out, request.search);
    ticker.clear();
    let answer = answer?;
    let batch = out.write_given(rt, Batch::new(rt.alloc()), &answer.table)?;
    reply_with(rt, batch, answer.status, answer.out)
}
