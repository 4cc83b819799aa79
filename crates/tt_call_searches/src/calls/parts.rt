//! The call `parts`.

ghost use Rattle.std.specs.Prelude.{◌≡◌, ℕ, List, IfOk, IfErr, MatchResult, ⊤};
ghost use Rattle.std.specs.Option.{option_copied};
ghost use Rattle.tt_instance.specs.Problem.{Problem};
ghost use Rattle.tt_instance.specs.Spelling.{Spells};
ghost use Rattle.tt_call_answers.specs.Lines.{parts_line};
ghost use Rattle.tt_call_searches.specs.Given.{SpellsGiven, IsGivenRefusal};
ghost use Rattle.tt_call_searches.specs.Parted.{IsParted};
ghost use Rattle.tt_call_answers.specs.declared.fault.AppFault.TheVariants as fault;

use crate::calls::given::read_given;
use crate::calls::solve::put_bound;
use std::alloc::{AllocError, Global};
use tt_call_answers::AppFault;
use tt_instance::Instance;
use tt_instance_read::read_instance;
use tt_leaf::Bound;
use tt_parts::{Effort, Parts, find_parts};
use tt_table::{Entry, Timetable};
use tt_text::{put_line_end, put_number, put_token};
use tt_watch::Watch;

/// The output of `parts`, and the texts of the proofs that it writes.
#[derive(Debug, Drop)]
pub struct PartsAnswer {
    /// The text for standard output.
    pub out: Vec<u8>,
    /// The texts of the proofs, at most one of each kind.
    pub proofs: Vec<Vec<u8>>,
}

/// Returns the line of a sum and the number of proofs.
fn line_of(alloc: Global, bound: Bound, count: u64) -> Result<Vec<u8>, AllocError>
    ensures { IfOk result (λ out. out.items ≡ parts_line bound count) }
{
    let mut out = Vec::new(alloc);
    put_token(&mut out, b"bound ")?;
    put_bound(&mut out, bound)?;
    put_token(&mut out, b" parts ")?;
    put_number(&mut out, count)?;
    put_line_end(&mut out)?;
    Ok(out)
}

/// Searches for proofs about an instance that was read, guided by a timetable, if there is one.
fn answer_of<W: Watch>(
    alloc: Global,
    instance: &Instance<'_>,
    effort: Effort,
    table: &Option<Timetable>,
    watch: &mut W,
) -> Result<PartsAnswer, AllocError>
    ensures { IfOk result (λ a. (i : List ℕ) → Spells i instance.now → IsParted i a) }
{
    let guide: &[Entry] = match table {
        Some(table) => table.entries(),
        None => &[],
    };
    let Parts { proofs, bound } = find_parts(alloc, instance, &[], effort, guide, watch)?;
    let out = line_of(alloc, bound, proofs.as_slice().len() as u64)?;
    Ok(PartsAnswer { out, proofs })
}

/// Searches for proofs of lower bounds that add up, and returns them and their sum. If a solution is given, it guides the search: no group is
/// tried whose value would have to be above its cost in the solution. Nothing is promised about which proofs it finds.
pub fn parts<W: Watch>(
    alloc: Global,
    instance: &[u8],
    guide: Option<&[u8]>,
    effort: Effort,
    watch: &mut W,
) -> Result<PartsAnswer, AppFault>
    // The proofs of the answer add up, and their sum holds.
    ensures found { IfOk result (IsParted instance.now) }
    // A refusal reports the first error.
    ensures fault { IfErr result (IsGivenRefusal instance.now (option_copied guide.entry)) }
    // If the files are spelled, there is an answer, unless memory runs out.
    ensures only { (p : Problem) → Spells instance.now p → SpellsGiven p (option_copied guide.entry) →
        MatchResult result (λ _. ⊤) (λ f. f ≡ fault.OutOfMemory) }
{
    let instance = read_instance(alloc, instance)?;
    let table = read_given(alloc, &instance, guide)?;
    Ok(answer_of(alloc, &instance, effort, &table, watch)?)
}
