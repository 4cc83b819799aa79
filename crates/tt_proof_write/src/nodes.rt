//! The lines of nodes.

ghost use Rattle.std.specs.Prelude.{◌≡◌, ◌++◌, OnOk, All, map};
ghost use Rattle.tt_text.specs.Lines.{line_text, lines_text};
ghost use Rattle.tt_proof_write.specs.Inner.Numbers.{IsNarrowNode};
ghost use Rattle.tt_proof_write.specs.Written.{node_word, node_rest, node_pieces, tail_text};

use crate::claims::put_claims;
use crate::fields::{put_courses, put_index, put_pattern};
use std::alloc::AllocError;
use tt_leaf::Leaf;
use tt_proof_read::Node;
use tt_text::{put_line_end, put_token};

fn node_word(node: &Node) -> &'static [u8]
    ensures { result.now ≡ node_word node.now }
{
    match node {
        Node::Split(_) => b"S",
        Node::Leaf(Leaf::Empty(_)) => b"E",
        Node::Leaf(Leaf::Many(_)) => b"M",
        Node::Leaf(Leaf::Clique(_)) => b"K",
        Node::Leaf(Leaf::Slots(_)) => b"H",
        Node::Leaf(Leaf::Cost(_)) => b"B",
    }
}

/// Writes the pieces after the word of a node.
fn put_node_rest(out: &mut Vec<u8>, node: &Node) -> Result<(), AllocError>
    ensures text { OnOk result (out.new.items ≡ out.old.items ++ tail_text (node_rest node.now)) }
    ensures narrow { OnOk result (IsNarrowNode node.now) }
{
    match node {
        Node::Split(pattern) | Node::Leaf(Leaf::Empty(pattern)) => put_pattern(out, pattern),
        Node::Leaf(Leaf::Many(course)) => put_index(out, b'c', *course),
        Node::Leaf(Leaf::Clique(courses) | Leaf::Slots(courses)) => {
            put_courses(out, courses.as_slice())
        }
        Node::Leaf(Leaf::Cost(claims)) => put_claims(out, claims.as_slice()),
    }
}

/// Writes the line of a node.
fn put_node(out: &mut Vec<u8>, node: &Node) -> Result<(), AllocError>
    ensures text { OnOk result (out.new.items ≡ out.old.items ++ line_text (node_pieces node.now)) }
    ensures narrow { OnOk result (IsNarrowNode node.now) }
{
    put_token(out, node_word(node))?;
    put_node_rest(out, node)?;
    put_line_end(out)
}

/// Writes one line for each node.
pub fn put_nodes(out: &mut Vec<u8>, nodes: &[Node]) -> Result<(), AllocError>
    ensures text { OnOk result (out.new.items ≡ out.old.items ++ lines_text (map node_pieces nodes.now)) }
    ensures narrow { OnOk result (All IsNarrowNode nodes.now) }
{
    for node in nodes {
        put_node(out, node)?;
    }
    Ok(())
}
