//! Proofs on the way.

ghost use Rattle.std.specs.Prelude.{◌≡◌, ◌≤◌, ◌+◌, ◌*◌, length, OnOk};
ghost use Rattle.tt_branch.specs.Inner.Links.{IsRooted};
ghost use Rattle.tt_branch.specs.Inner.State.{IsUnderWay};
ghost use Rattle.tt_branch.specs.declared.limit.TheConstants.{MAX_TREE};

use crate::nodes::{Written, write_nodes};
use crate::search::Search;
use std::alloc::{AllocError, Global};
use tt_leaf::Bound;
use tt_path::{Fact, Path};
use tt_proof_read::Node;
use tt_proof_write::{WriteFault, write_proof};
use tt_watch::Watch;

/// The version of the proofs, which has all claims.
const VERSION: u8 = 2;

/// Gives a watch the text of a proof of a bound, if it is not too long.
fn give<W: Watch>(
    alloc: Global,
    watch: &mut W,
    least: u64,
    nodes: &[Node],
) -> Result<(), AllocError> {
    match write_proof(alloc, VERSION, Bound::AtLeast(least), nodes) {
        Ok(text) => watch.take(least, &[text]),
        Err(WriteFault::OutOfMemory) => return Err(AllocError),
        Err(_) => {}
    }
    Ok(())
}

/// Gives a watch the proof of a search as it is, if the watch asks for it. The node at the place is the open one of the least value.
pub fn give_if_asked<'i, P: Path<'i>, W: Watch>(
    alloc: Global,
    path: &mut P,
    root: &[Fact],
    search: &Search,
    place: usize,
    watch: &mut W,
) -> Result<(), AllocError>
    requires rooted { IsRooted root.now (P.facts path.old) }
    requires under_way { IsUnderWay (P.problem path.old) root.now search.now }
    requires at_most { 2 * length root.now + length search.now.tree_nodes.items ≤ MAX_TREE }
    ensures rooted { OnOk result (IsRooted root.now (P.facts path.new)) }
    ensures unchanged { P.problem path.new ≡ P.problem path.old }
{
    // Brings the instance's limits into the proof.
    prove!(path.instance().days() <= 64);
    let bound = search.tree_nodes.get(place).map_or(0, |node| node.key);
    if !watch.is_asking(bound) {
        return Ok(());
    }
    let Written { nodes, least } = write_nodes(
        alloc,
        path,
        root,
        search.links.as_slice(),
        search.tree_nodes.as_slice(),
        true,
    )?;
    match least {
        Some(least) => give(alloc, watch, least, nodes.as_slice()),
        None => Ok(()),
    }
}
