//! Writes proofs as text.

ghost use Rattle.std.specs.Prelude.{◌≡◌, ◌≤◌, ◌++◌, ◌∷◌, [], All, IfOk, IfErr, OnOk};
ghost use Rattle.tt_text.specs.Lines.{line_text};
ghost use Rattle.tt_instance.specs.Problem.{Problem};
ghost use Rattle.tt_proof_read.specs.Spelling.{IsNode, SpellsProof};
ghost use Rattle.tt_proof_read.specs.Trees.{Tree, preorder};
ghost use Rattle.tt_proof_write.specs.Inner.Numbers.{IsNarrowNode};
ghost use Rattle.tt_proof_write.specs.Written.{header_pieces, proof_text};
ghost use Rattle.tt_proof_write.specs.Within.{Refuses, Writes};

use crate::bytes::proof_bytes;
use crate::fault::WriteFault;
use crate::fields::version_text;
use crate::limits::{are_nodes_in, are_within};
use crate::nodes::put_nodes;
use std::alloc::{AllocError, Global};
use tt_leaf::Bound;
use tt_proof_read::{Node, Word, is_tree};
use tt_text::{MAX_BYTES, put_line_end, put_next_number, put_next_token, put_token};

fn put_header(out: &mut Vec<u8>, version: u8, bound: Bound) -> Result<(), AllocError>
    ensures { OnOk result (out.new.items ≡ out.old.items ++ line_text (header_pieces version bound)) }
{
    put_token(out, Word::Cttp.text())?;
    put_next_token(out, version_text(version))?;
    put_next_token(out, Word::Bound.text())?;
    match bound {
        Bound::AtLeast(points) => put_next_number(out, points)?,
        Bound::Nothing => put_next_token(out, b"none")?,
    }
    put_line_end(out)
}

/// Writes the text of a proof into bytes for which there is room from the start.
fn put_proof(
    alloc: Global,
    version: u8,
    bound: Bound,
    nodes: &[Node],
    room: usize,
) -> Result<Vec<u8>, AllocError>
    ensures text { IfOk result (λ out. out.items ≡ proof_text version bound nodes.now) }
    ensures narrow { OnOk result (All IsNarrowNode nodes.now) }
{
    let mut out = Vec::with_capacity(alloc, room)?;
    put_header(&mut out, version, bound)?;
    put_nodes(&mut out, nodes)?;
    put_token(&mut out, Word::End.text())?;
    put_line_end(&mut out)?;
    Ok(out)
}

/// Writes the text of a proof of a version: the header, one line for each node in preorder, and the end.
pub fn write_proof(
    alloc: Global,
    version: u8,
    bound: Bound,
    nodes: &[Node],
) -> Result<Vec<u8>, WriteFault>
    requires { (1 ≤ version) × (version ≤ 2) }
    ensures text { IfOk result (λ out. Writes version bound nodes.now out.items) }
    ensures refuses { IfErr result (Refuses version bound nodes.now) }
    // The text spells the same tree.
    ensures again { (p : Problem) (tree : Tree) → preorder tree ≡ nodes.now → All (IsNode p version) nodes.now →
        IfOk result (λ out. SpellsProof p out.items version bound tree) }
{
    if !is_tree(nodes) {
        return Err(WriteFault::NotATree);
    }
    let bytes = proof_bytes(version, bound, nodes);
    if bytes > MAX_BYTES as u64 || !are_within(bound, nodes) {
        return Err(WriteFault::OverLimit);
    }
    if !are_nodes_in(version, nodes) {
        return Err(WriteFault::NotInVersion);
    }
    Ok(put_proof(alloc, version, bound, nodes, bytes as usize)?)
}
