//! Searching for proofs over disjoint targets.

ghost use Rattle.std.specs.Prelude.{IfNone, IfOk, IfSome, List};
ghost use Rattle.tt_instance.specs.Problem.{Problem};
ghost use Rattle.tt_path.specs.declared.facts.Fact.{Fact};
ghost use Rattle.tt_parts.specs.Found.{AreFoundOn, AreRefusedOn, texts_of};

use crate::known::{cost_of, is_greatest};
use crate::prices::find_priced;
use crate::rooms::find_rooms;
use crate::stronger::{better_of, is_far_above};
use crate::strongest::add_up_or_best;
use crate::together::sum_of;
use std::alloc::{AllocError, Global};
use tt_instance::Instance;
use tt_leaf::Bound;
use tt_parts_groups::{GroupSearch, KnownProof, find_groups, write_all};
use tt_path::Fact;
use tt_table::Entry;
use tt_watch::Watch;

/// The number of relaxations that the search for groups may do for each node allowed.
const RELAXATIONS_OF_NODE: u64 = 50_000;

/// The part of the search for groups that comes before the search for prices.
const FIRST_PART: u32 = 8;

/// The amount of work that each of the two searches may do, and the seed of their random choices.
#[derive(Clone, Copy, Debug, PartialEq, Eq)]
pub struct Effort {
    /// Each node allows 50,000 relaxations of groups, and 50,000 units of work on prices.
    pub nodes: u32,
    pub seed: u64,
}

/// Proofs that claim distinct targets, as texts, and the sum of their bounds. A file of groups comes first, if one was found.
#[derive(Drop)]
pub struct Parts {
    pub proofs: Vec<Vec<u8>>,
    pub bound: Bound,
}

impl Parts {
    /// Returns no proofs, whose bound is 0.
    pub fn none(alloc: Global) -> Parts
        ensures { (p : Problem) (root : List Fact) → AreFoundOn p root result }
    {
        Parts {
            proofs: Vec::new(alloc),
            bound: Bound::AtLeast(0),
        }
    }
}

/// Returns proofs with the sum of their bounds, if each is right, with these facts at the roots of trees, and no two claim the same target, and
/// `None` otherwise, or if the check of a claim isn't finished.
pub fn add_up(
    alloc: Global,
    instance: &Instance<'_>,
    root: &[Fact],
    proofs: Vec<Vec<u8>>,
) -> Result<Option<Parts>, AllocError>
    ensures found { IfOk result (λ found. IfSome found (AreFoundOn instance.now root.now)) }
    ensures none { IfOk result (λ found. IfNone found (AreRefusedOn instance.now root.now (texts_of proofs.items))) }
{
    let Some(bound) = sum_of(alloc, instance, root, proofs.as_slice())? else {
        return Ok(None);
    };
    Ok(Some(Parts { proofs, bound }))
}

/// Returns the texts of all proofs.
fn find_texts<W: Watch>(
    alloc: Global,
    instance: &Instance<'_>,
    root: &[Fact],
    effort: Effort,
    guide: &[Entry],
    watch: &mut W,
) -> Result<Vec<Vec<u8>>, AllocError> {
    let rooms = find_rooms(alloc, instance, root)?;
    let known = rooms.as_ref().map(|rooms| KnownProof {
        text: &rooms.text,
        points: rooms.points,
    });
    let search = GroupSearch {
        effort: u64::from(effort.nodes).saturating_mul(RELAXATIONS_OF_NODE),
        seed: effort.seed,
        guide,
    };
    let claims = find_groups(alloc, instance, search, known, watch)?;
    write_all(alloc, &claims, known)
}

/// Returns proofs with the sum of their bounds; the strongest one if they don't add up, and no proofs if none is right.
fn sum_or_none(
    alloc: Global,
    instance: &Instance<'_>,
    root: &[Fact],
    proofs: &[Vec<u8>],
) -> Result<Parts, AllocError>
    ensures { IfOk result (AreFoundOn instance.now root.now) }
{
    match add_up_or_best(alloc, instance, root, proofs)? {
        Some(parts) => Ok(parts),
        None => Ok(Parts::none(alloc)),
    }
}

/// Searches for claims about groups and a proof about the rooms.
fn find_by_groups<W: Watch>(
    alloc: Global,
    instance: &Instance<'_>,
    root: &[Fact],
    effort: Effort,
    guide: &[Entry],
    watch: &mut W,
) -> Result<Parts, AllocError>
    ensures { IfOk result (AreFoundOn instance.now root.now) }
{
    let proofs = find_texts(alloc, instance, root, effort, guide, watch)?;
    sum_or_none(alloc, instance, root, &proofs)
}

/// Searches for a file of groups with prices. `known` is the cost of a known timetable.
fn find_by_prices<W: Watch>(
    alloc: Global,
    instance: &Instance<'_>,
    root: &[Fact],
    effort: Effort,
    known: Option<u64>,
    watch: &mut W,
) -> Result<Parts, AllocError>
    ensures { IfOk result (AreFoundOn instance.now root.now) }
{
    let mut proofs = Vec::new(alloc);
    if let Some(text) = find_priced(alloc, instance, effort, known, watch)? {
        proofs.push(text)?;
    }
    sum_or_none(alloc, instance, root, &proofs)
}

/// Searches for proofs that claim distinct targets: claims about groups, and one proof about the rooms, which is a tree of one leaf or a file of
/// rents; or one file of groups with prices, if that proves more. The tree has the facts of the root above it. The entries are those of a known timetable, or none: a group is not tried if
/// its value would have to be above its cost in that timetable, and nothing is tried after a bound that is the timetable's cost. A part of the
/// search for groups comes first, then the search for prices, and then the whole search for groups, if prices don't prove far more. The watch
/// may end the search, and take proofs on the way. It makes no promise about how much it finds and how long it takes.
pub fn find_parts<W: Watch>(
    alloc: Global,
    instance: &Instance<'_>,
    root: &[Fact],
    effort: Effort,
    guide: &[Entry],
    watch: &mut W,
) -> Result<Parts, AllocError>
    // Each proof is a right file of its kind, no target is claimed by two, and the bound is the sum, which holds for every feasible timetable that
    // fits the root.
    ensures { IfOk result (AreFoundOn instance.now root.now) }
{
    let known = cost_of(alloc, instance, guide)?;
    let first = Effort {
        nodes: effort.nodes / FIRST_PART,
        seed: effort.seed,
    };
    let parts = find_by_groups(alloc, instance, root, first, guide, watch)?;
    let before = parts.bound;
    if is_greatest(before, known) || watch.is_over() {
        return Ok(parts);
    }
    let priced = find_by_prices(alloc, instance, root, effort, known, watch)?;
    let best = better_of(parts, priced);
    if is_greatest(best.bound, known) || is_far_above(best.bound, before) || watch.is_over() {
        return Ok(best);
    }
    let groups = find_by_groups(alloc, instance, root, effort, guide, watch)?;
    Ok(better_of(best, groups))
}
