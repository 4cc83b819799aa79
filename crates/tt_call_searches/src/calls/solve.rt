//! The call `solve`.

ghost use Rattle.std.specs.Prelude.{◌≡◌, ◌≤◌, ◌⊎◌, ◌++◌, ◌∷◌, [], Some, IfSome, IfOk, IfErr, OnOk, MatchResult, MatchOption, is_some, ⊤, if◌then◌else◌, codes};
ghost use Rattle.tt_instance.specs.Problem.{Problem};
ghost use Rattle.tt_instance.specs.Spelling.{Spells};
ghost use Rattle.tt_table.specs.Table.{IsTimetable};
ghost use Rattle.tt_proof_read.specs.Trees.{IsPreorder};
ghost use Rattle.tt_proof_write.specs.Within.{Writes};
ghost use Rattle.tt_branch.specs.declared.limit.TheConstants.{MAX_OPENED};
ghost use Rattle.tt_call_answers.specs.Lines.{best_cost, bound_points, solve_line};
ghost use Rattle.tt_call_searches.specs.Solved.{IsProofFile, IsOverLong, IsTableText, IsSolved, IsSolveRefusal};
ghost use Rattle.tt_call_answers.specs.declared.fault.AppFault.TheVariants as fault;

use std::alloc::{AllocError, Global};
use tt_branch::{Outcome, Start};
use tt_call_answers::{Answer, AppFault};
use tt_instance::Instance;
use tt_instance_read::read_instance;
use tt_leaf::Bound;
use tt_proof_read::Node;
use tt_proof_write::{WriteFault, write_proof};
use tt_rules::score;
use tt_search::construct;
use tt_table::{Timetable, write_solution};
use tt_text::{put_line_end, put_number, put_token};
use tt_watch::Watch;

/// The seed of a search by a tree, and the maximum number of nodes that it opens.
#[derive(Clone, Copy, Debug, PartialEq, Eq)]
pub struct TreeEffort {
    pub seed: u64,
    pub nodes: u32,
}

fn put_cost(
    out: &mut Vec<u8>,
    instance: &Instance<'_>,
    best: &Option<Timetable>,
) -> Result<(), AllocError>
    requires { IfSome best.now (IsTimetable instance.now) }
    ensures { OnOk result (out.new.items ≡ out.old.items ++ best_cost instance.now best.now) }
{
    match best {
        Some(table) => put_number(out, score(instance, table).cost()),
        None => put_token(out, b"none"),
    }
}

/// Writes the points of a bound, or that there is no timetable.
pub fn put_bound(out: &mut Vec<u8>, bound: Bound) -> Result<(), AllocError>
    ensures { OnOk result (out.new.items ≡ out.old.items ++ bound_points bound) }
{
    match bound {
        Bound::AtLeast(least) => put_number(out, least),
        Bound::Nothing => put_token(out, b"none"),
    }
}

fn put_end(out: &mut Vec<u8>, finished: bool) -> Result<(), AllocError>
    ensures { OnOk result (out.new.items ≡ out.old.items ++ (if finished then codes " finished" else codes " unfinished") ++ 10 ∷ []) }
{
    if finished {
        put_token(out, b" finished")?;
    } else {
        put_token(out, b" unfinished")?;
    }
    put_line_end(out)
}

/// Returns the line of a search's result.
pub fn line_of(
    alloc: Global,
    instance: &Instance<'_>,
    best: &Option<Timetable>,
    bound: Bound,
    finished: bool,
) -> Result<Vec<u8>, AllocError>
    requires { IfSome best.now (IsTimetable instance.now) }
    ensures { IfOk result (λ out. out.items ≡ solve_line instance.now best.now bound finished) }
{
    let mut out = Vec::new(alloc);
    put_token(&mut out, b"cost ")?;
    put_cost(&mut out, instance, best)?;
    put_token(&mut out, b" bound ")?;
    put_bound(&mut out, bound)?;
    put_end(&mut out, finished)?;
    Ok(out)
}

/// Returns the text of the best timetable; if there is none, that of a constructed one, which may break hard rules.
fn table_text(
    alloc: Global,
    instance: &Instance<'_>,
    best: &Option<Timetable>,
    seed: u64,
) -> Result<Vec<u8>, AllocError>
    requires { IfSome best.now (IsTimetable instance.now) }
    ensures { IfOk result (λ text. IsTableText instance.now best.now text.items) }
{
    match best {
        Some(table) => write_solution(alloc, instance, table),
        None => {
            let table = construct(alloc, instance, seed)?;
            write_solution(alloc, instance, &table)
        }
    }
}

/// Writes a tree in version 2, which has all claims; `None` if its text is too long.
fn second_text(alloc: Global, bound: Bound, nodes: &[Node]) -> Result<Option<Vec<u8>>, AllocError>
    requires { IsPreorder nodes.now }
    ensures { IfOk result (λ text. MatchOption text (IsOverLong bound nodes.now) (λ v. Writes 2 bound nodes.now v.items)) }
{
    match write_proof(alloc, 2, bound, nodes) {
        Ok(text) => Ok(Some(text)),
        Err(WriteFault::OverLimit) => Ok(None),
        Err(WriteFault::OutOfMemory) => Err(AllocError),
        Err(WriteFault::NotATree) => unreachable!(),
        Err(WriteFault::NotInVersion) => unreachable!(),
    }
}

/// Writes a tree in the least version that has its claims; `None` if its text is too long.
pub fn least_text(
    alloc: Global,
    bound: Bound,
    nodes: &[Node],
) -> Result<Option<Vec<u8>>, AllocError>
    requires { IsPreorder nodes.now }
    ensures { IfOk result (λ text. MatchOption text (IsOverLong bound nodes.now) (λ v. IsProofFile bound nodes.now v.items)) }
{
    match write_proof(alloc, 1, bound, nodes) {
        Ok(text) => Ok(Some(text)),
        Err(WriteFault::NotInVersion) => second_text(alloc, bound, nodes),
        Err(WriteFault::OverLimit) => Ok(None),
        Err(WriteFault::OutOfMemory) => Err(AllocError),
        Err(WriteFault::NotATree) => unreachable!(),
    }
}

/// The texts of the files that a search writes.
#[derive(Drop)]
struct Texts {
    table: Vec<u8>,
    proof: Vec<u8>,
}

/// Returns the answer for a search.
fn search_answer(
    alloc: Global,
    instance: &Instance<'_>,
    best: &Option<Timetable>,
    bound: Bound,
    finished: bool,
    texts: Texts,
) -> Result<Answer, AllocError>
    requires { IfSome best.now (IsTimetable instance.now) }
    ensures text { IfOk result (λ a. a.out.items ≡ solve_line instance.now best.now bound finished) }
    ensures status { IfOk result (λ a. a.status ≡ (if is_some best.now then 0 else 1)) }
    ensures table { IfOk result (λ a. a.table ≡ Some texts.table) }
    ensures proof { IfOk result (λ a. a.proof ≡ Some texts.proof) }
{
    let Texts { table, proof } = texts;
    Ok(Answer {
        status: if best.is_some() { 0 } else { 1 },
        out: line_of(alloc, instance, best, bound, finished)?,
        table: Some(table),
        proof: Some(proof),
    })
}

/// Searches for a best timetable by a tree, and returns it with a proof of a lower bound, of at most as many nodes as it opens if each is closed,
/// and of fewer than twice as many if not. If it found none that breaks no hard rule, it returns one that may break some, and the status is 1.
/// The watch may end the search. Nothing is promised about which nodes are opened.
pub fn solve<W: Watch>(
    alloc: Global,
    instance: &[u8],
    tree: TreeEffort,
    watch: &mut W,
) -> Result<Answer, AppFault>
    requires positive { 1 ≤ tree.nodes }
    requires at_most { tree.nodes ≤ MAX_OPENED }
    // The timetable in the answer is feasible, and the proof derives its bound. Unless the watch has ended the search, all nodes are opened, or
    // each is closed.
    ensures found { IfOk result (IsSolved instance.now tree.nodes (W.has_ended watch.new)) }
    // A refusal reports the first error.
    ensures fault { IfErr result (IsSolveRefusal instance.now tree.nodes (W.has_ended watch.new)) }
    // If the bytes spell an instance, there is an answer, unless memory runs out or the proof grows too large.
    ensures only { (p : Problem) → Spells instance.now p →
        MatchResult result (λ _. ⊤) (λ f. (f ≡ fault.OutOfMemory) ⊎ (f ≡ fault.ProofTooLarge)) }
{
    let TreeEffort { seed, nodes } = tree;
    let instance = read_instance(alloc, instance)?;
    let start = Start {
        root: &[],
        table: None,
    };
    let Outcome {
        best,
        bound,
        proof,
        finished,
    } = tt_branch::solve(alloc, &instance, start, nodes, seed, watch)?;
    let Some(text) = least_text(alloc, bound, &proof)? else {
        return Err(AppFault::ProofTooLarge);
    };
    let texts = Texts {
        table: table_text(alloc, &instance, &best, seed)?,
        proof: text,
    };
    Ok(search_answer(alloc, &instance, &best, bound, finished, texts)?)
}
