//! The rounds of a search: each opens one node.

ghost use Rattle.std.specs.Prelude.{◌≡◌, ◌<◌, ◌≤◌, ◌+◌, ◌*◌, ◌⊎◌, length, true, IfOk, OnOk, IfSome, IsNone};
ghost use Rattle.tt_branch.specs.Inner.Growing.{IsOpenAt, is_open, opened_in};
ghost use Rattle.tt_branch.specs.Inner.BestSoFar.{Advances};
ghost use Rattle.tt_branch.specs.Inner.Links.{IsRooted};
ghost use Rattle.tt_branch.specs.Inner.State.{IsUnderWay, MakesWait, EndsAt};
ghost use Rattle.tt_branch.specs.declared.limit.TheConstants.{MAX_TREE};
ghost use Rattle.tt_path.specs.declared.path.TheConstants.{MAX_FACTS};

use crate::keeping::give_if_asked;
use crate::search::{Search, next_open, split};
use crate::tree_node::NodeState;
use crate::visit::open_at;
use crate::watching::show;
use std::alloc::{AllocError, Global};
use tt_path::{Fact, Path, Pattern};
use tt_watch::Watch;

/// Splits a node if it was opened; returns the place of the node to open next: of two children, the one expected to have the lower value.
fn make_wait(search: &mut Search, place: usize) -> Result<usize, AllocError>
    requires { IsOpenAt search.old.tree_nodes.items place }
    ensures made { IfOk result (λ next. MakesWait place search.old next search.new) }
{
    match search.tree_nodes[place].mark.pattern() {
        Some(pattern) => {
            let second_first = search.tree_nodes[place].rises.is_second_better();
            split(search, place, pattern)?;
            Ok(if second_first { place + 2 } else { place + 1 })
        }
        None => Ok(place),
    }
}

/// Opens a node: an open one that waits, or a child of an open one that is split for this.
fn open_next<'i, P: Path<'i>>(
    alloc: Global,
    path: &mut P,
    root: &[Fact],
    search: &mut Search,
    place: usize,
) -> Result<(), AllocError>
    requires rooted { IsRooted root.now (P.facts path.old) }
    requires under_way { IsUnderWay (P.problem path.old) root.now search.old }
    requires place { IsOpenAt search.old.tree_nodes.items place }
    requires at_most { 2 * length root.now + length search.old.tree_nodes.items ≤ MAX_TREE }
    ensures rooted { OnOk result (IsRooted root.now (P.facts path.new)) }
    ensures under_way { OnOk result (IsUnderWay (P.problem path.old) root.now search.new) }
    ensures better { OnOk result (Advances (P.problem path.old) root.now search.old.best search.new.best) }
    ensures opened { OnOk result (opened_in search.new.tree_nodes.items ≡ opened_in search.old.tree_nodes.items + 1) }
    ensures many { OnOk result (length search.new.tree_nodes.items ≤ length search.old.tree_nodes.items + 2) }
    ensures unchanged { P.problem path.new ≡ P.problem path.old }
{
    let next = make_wait(search, place)?;
    open_at(alloc, path, root, search, next)
}

/// The end of the rounds of a search.
#[derive(Clone, Copy)]
pub struct Ending {
    /// The number of nodes that were opened, including the root; the limit if no node is open.
    pub opened: u32,
    /// Whether no node is open.
    pub finished: bool,
}

/// Opens nodes until none is open, this many were opened, including the root, or the watch ends the search.
pub fn grow<'i, P: Path<'i>, W: Watch>(
    alloc: Global,
    path: &mut P,
    root: &[Fact],
    search: &mut Search,
    limit: u32,
    watch: &mut W,
) -> Result<Ending, AllocError>
    requires rooted { IsRooted root.now (P.facts path.old) }
    requires under_way { IsUnderWay (P.problem path.old) root.now search.old }
    requires opened { opened_in search.old.tree_nodes.items ≡ 1 }
    requires alone { length search.old.tree_nodes.items ≡ 1 }
    requires positive { 1 ≤ limit }
    requires at_most { length root.now + limit ≤ MAX_FACTS }
    ensures rooted { OnOk result (IsRooted root.now (P.facts path.new)) }
    ensures under_way { OnOk result (IsUnderWay (P.problem path.old) root.now search.new) }
    ensures better { OnOk result (Advances (P.problem path.old) root.now search.old.best search.new.best) }
    ensures ends { IfOk result (λ e. EndsAt e.opened search.new.tree_nodes.items e.finished) }
    ensures within { IfOk result (λ e. e.opened ≤ limit) }
    ensures all { IfOk result (λ e. (e.opened ≡ limit) ⊎ W.has_ended watch.new) }
    ensures unchanged { P.problem path.new ≡ P.problem path.old }
{
    for opened in 1..limit {
        let Some(place) = next_open(search.tree_nodes.as_slice()) else {
            return Ok(Ending {
                opened: limit,
                finished: true,
            });
        };
        show(watch, search, place, opened, limit);
        if watch.is_over() {
            return Ok(Ending {
                opened,
                finished: false,
            });
        }
        give_if_asked(alloc, path, root, search, place, watch)?;
        open_next(alloc, path, root, search, place)?;
    }
    Ok(Ending {
        opened: limit,
        finished: next_open(search.tree_nodes.as_slice()).is_none(),
    })
}
