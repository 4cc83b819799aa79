//! Single nodes.

ghost use Rattle.std.specs.Prelude.{◌<◌, IfOk};
ghost use Rattle.tt_proof_read.specs.Inner.Contract.{ReadsAs};
ghost use Rattle.tt_proof_read.specs.Faults.{ReportsNoFailedRead, Gives};
ghost use Rattle.tt_proof_read.specs.Inner.Pricing.{AreTables};
ghost use Rattle.tt_proof_read.specs.Readers.{IsNodeAt};
ghost use Rattle.tt_proof_read.specs.Reading.{node_word_of, node_after_word, node_at};

use crate::claims::read_claims;
use crate::fault::TextFault;
use crate::fields::{read_course, token};
use crate::form::ProofForm;
use crate::format::MAX_PROOF_NODES;
use crate::lists::read_list;
use crate::node::Node;
use crate::patterns::read_pattern;
use crate::tables::Tables;
use std::alloc::Global;
use tt_leaf::{ClaimList, CourseList, Leaf};
use tt_text::{Feed, Source};

/// The first token of a node.
#[derive(Clone, Copy, Debug)]
pub enum NodeWord {
    Split,
    Empty,
    Many,
    Clique,
    Slots,
    Cost,
}

/// Returns the word of a node, in one token.
fn node_word(text: &[u8], at: usize) -> Result<NodeWord, TextFault>
    ensures read { Gives (λ w. w) result (node_word_of (record { text = text.now; at = at })) }
    ensures unread { ReportsNoFailedRead result }
{
    match text {
        b"S" => Ok(NodeWord::Split),
        b"E" => Ok(NodeWord::Empty),
        b"M" => Ok(NodeWord::Many),
        b"K" => Ok(NodeWord::Clique),
        b"H" => Ok(NodeWord::Slots),
        b"B" => Ok(NodeWord::Cost),
        _ => Err(TextFault::UnknownWord(at)),
    }
}

/// Reads the rest of a node after its word.
#[tactic(auto, unfolding(crate::specs::Reading::node_after_word))]
#[inline(always)]
fn read_node_after_word<R: Source>(
    alloc: Global,
    feed: &mut Feed,
    source: &mut R,
    form: ProofForm,
    word: NodeWord,
    tables: &mut Tables,
) -> Result<Node, TextFault>
    requires { AreTables form.sizes tables.old }
    ensures tables { AreTables form.sizes tables.new }
    ensures read { ReadsAs R.Source feed.old source.old feed.new source.new (λ n. n) result (node_after_word form.sizes form.version word) }
    ensures node { IfOk result (IsNodeAt form.sizes form.version) }
{
    let sizes = form.sizes;
    match word {
        NodeWord::Split => {
            let pattern = read_pattern(feed, source, sizes)?;
            Ok(Node::Split(pattern))
        }
        NodeWord::Empty => {
            let pattern = read_pattern(feed, source, sizes)?;
            Ok(Node::Leaf(Leaf::Empty(pattern)))
        }
        NodeWord::Many => {
            let course = read_course(feed, source, sizes)?;
            Ok(Node::Leaf(Leaf::Many(course)))
        }
        NodeWord::Clique => {
            let courses = read_list(alloc, feed, source, sizes, &mut tables.courses)?;
            Ok(Node::Leaf(Leaf::Clique(CourseList::new(courses))))
        }
        NodeWord::Slots => {
            let courses = read_list(alloc, feed, source, sizes, &mut tables.courses)?;
            Ok(Node::Leaf(Leaf::Slots(CourseList::new(courses))))
        }
        NodeWord::Cost => {
            let claims = read_claims(alloc, feed, source, form, tables)?;
            Ok(Node::Leaf(Leaf::Cost(ClaimList::new(claims))))
        }
    }
}

/// Reads a node, with this many nodes before it.
#[tactic(auto, unfolding(crate::specs::Reading::node_at))]
#[inline(always)]
pub fn read_node<R: Source>(
    alloc: Global,
    feed: &mut Feed,
    source: &mut R,
    form: ProofForm,
    count: u32,
    tables: &mut Tables,
) -> Result<Node, TextFault>
    requires { AreTables form.sizes tables.old }
    ensures tables { AreTables form.sizes tables.new }
    ensures read { ReadsAs R.Source feed.old source.old feed.new source.new (λ n. n) result (node_at form.sizes form.version count) }
    ensures node { IfOk result (IsNodeAt form.sizes form.version) }
    ensures room { IfOk result (λ _. count < MAX_PROOF_NODES) }
{
    let at = token(feed, source)?;
    if count >= MAX_PROOF_NODES {
        return Err(TextFault::TooManyNodes(at));
    }
    let word = node_word(feed.token(), at)?;
    read_node_after_word(alloc, feed, source, form, word, tables)
}
