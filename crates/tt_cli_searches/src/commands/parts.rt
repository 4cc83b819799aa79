//! The files of `parts`.

use std::alloc::AllocError;
use std::io::Write;
use tt_call_searches::{PartsAnswer, parts};
use tt_cli_arguments::{PartSearch, PartsRequest};
use tt_cli_files::{Batch, Role};
use tt_cli_progress::{Ticker, World, ticker_of};
use tt_cli_saving::{
    CommandFault, Folder, FolderFile, GROUPS, Input, InputFile, Inputs, Keeper, PRICES,
    ProofFolder, Reply, Shelf, reply_with,
};
use tt_parts::Effort;

/// The tree proof about rooms.
const ROOMS: FolderFile = FolderFile {
    role: Role::Proof,
    name: "rooms.proof",
};

/// The files in which proofs are stored on the way.
struct PartsShelf<'s, 'p, R: World> {
    rt: &'s R,
    proofs: ProofFolder<'p>,
}

impl<'s, 'p, R: World> Drop for PartsShelf<'s, 'p, R> {
    fn drop(self) {
        let PartsShelf { rt: _, proofs: _ } = self;
    }
}

impl<'s, 'p, R: World> Shelf for PartsShelf<'s, 'p, R> {
    fn put_proofs(&mut self, proofs: &[Vec<u8>]) -> Result<bool, AllocError> {
        if !self.proofs.can_keep(self.rt)? {
            return Ok(false);
        }
        let batch = Batch::new(self.rt.alloc());
        let batch = self.proofs.write(self.rt, batch, proofs)?;
        Ok(batch.put_or_remove(self.rt))
    }

    fn clear(&mut self, batch: Batch) -> Result<Batch, AllocError> {
        Ok(batch)
    }
}

/// The files that `parts` reads.
#[derive(Clone, Copy)]
struct Read<'a> {
    instance: InputFile<'a>,
    solution: Option<InputFile<'a>>,
}

/// Watches a search for proofs that begins now.
fn watch_parts<'k, 't, 'p, R: World, E: Write>(
    rt: &'k R,
    ticker: &'k mut Ticker<'t, R, E>,
    proofs: ProofFolder<'p>,
    search: PartSearch,
) -> Keeper<'k, 't, R, E, PartsShelf<'k, 'p, R>> {
    let shelf = PartsShelf { rt, proofs };
    Keeper::new(rt, ticker, search.seconds, None, shelf, search.keeps)
}

/// Searches for the proofs, shows the progress on standard error, and keeps proofs on the way if the options ask for it.
fn find_shown<'k, R: World, E: Write>(
    rt: &'k R,
    ticker: &'k mut Ticker<'_, R, E>,
    read: Read<'_>,
    proofs: ProofFolder<'_>,
    search: PartSearch,
) -> Result<PartsAnswer, CommandFault> {
    let instance = read.instance.read(rt)?;
    let guide = match read.solution {
        Some(solution) => Some(solution.read(rt)?),
        None => None,
    };
    let mut keeper = watch_parts(rt, ticker, proofs, search);
    let effort = Effort {
        nodes: search.nodes,
        seed: search.seed,
    };
    let guide = guide.as_ref().map(|bytes| bytes.as_slice());
    Ok(parts(rt.alloc(), &instance, guide, effort, &mut keeper)?)
}

/// Searches for the proofs, and writes them.
fn write_found<R: World, E: Write>(
    rt: &R,
    err: &mut E,
    read: Read<'_>,
    inputs: &Inputs<'_>,
    request: PartsRequest<'_>,
) -> Result<Reply, CommandFault> {
    let folder = Folder {
        path: request.folder,
    };
    folder.check(rt, inputs, &[GROUPS, PRICES, ROOMS])?;
    let _ = folder.prepare(rt, inputs, GROUPS)?;
    let proofs = ProofFolder {
        folder,
        tree: ROOMS,
        is_under_wishes: false,
    };
    let mut ticker = ticker_of(rt, err, "parts", request.showing);
    let answer = find_shown(rt, &mut ticker, read, proofs, request.search);
    ticker.clear();
    let answer = answer?;
    let batch = proofs.write(rt, Batch::new(rt.alloc()), &answer.proofs)?;
    reply_with(rt, batch, 0, answer.out)
}

/// Returns the answer, once all proofs are in their files.
pub fn answer_parts<R: World, E: Write>(
    rt: &R,
    err: &mut E,
    request: PartsRequest<'_>,
) -> Result<Reply, CommandFault> {
    let mut inputs = Inputs::new(rt.alloc());
    let read = Read {
        instance: inputs.add(Input::Instance, request.instance)?,
        solution: inputs.add_given(Input::Solution, request.solution)?,
    };
    let folder = Folder {
        path: request.folder,
    };
    let is_made = folder.make(rt)?;
    let reply = write_found(rt, err, read, &inputs, request);
    if reply.is_err() {
        folder.remove_made(rt, is_made);
    }
    reply
}
