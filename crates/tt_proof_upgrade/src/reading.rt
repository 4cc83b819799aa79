//! Proofs that are read as a whole.

ghost use Rattle.std.specs.Prelude.{◌≡◌, ◌≤◌, List, ℕ, length, true, false, if◌then◌else◌, is_some, Some, None, Err, All, IfOk, IfErr, OnOk};
ghost use Rattle.tt_text.specs.Feeds.{stream_at};
ghost use Rattle.tt_proof_read.specs.Answers.{StaysKnown};
ghost use Rattle.tt_proof_read.specs.Faults.{read_failed, is_failed_read, is_environmental};
ghost use Rattle.tt_proof_read.specs.Readers.{IsNodeAt};
ghost use Rattle.tt_proof_read.specs.declared.format.TheConstants.{MAX_PROOF_NODES};
ghost use Rattle.tt_text.specs.Failures.{is_err_and};
ghost use Rattle.tt_proof_check.specs.FailedReads.{UpToFailure, BeforeFailure};
ghost use Rattle.tt_proof_check.specs.Streams.{stream_of};
ghost use Rattle.tt_proof_upgrade.specs.Texts.{IsRead, AreNodesOf, IsCollected, NodeTextFails, IsTextFault, IsReadUpToFailedRead};

use std::alloc::Global;
use tt_instance::Instance;
use tt_leaf::Bound;
use tt_proof_read::{Node, NodeReader, TextFault};
use tt_text::Source;

/// A proof that was read as a whole: its version, 1 or 2, its bound and the nodes of its tree in preorder. Nothing was checked.
#[derive(Debug, Drop)]
pub struct ReadProof {
    pub version: u8,
    pub bound: Bound,
    pub nodes: Vec<Node>,
}

/// Reads all nodes of a tree.
fn collect<R: Source>(
    alloc: Global,
    reader: &mut NodeReader,
    source: &mut R,
) -> Result<Vec<Node>, TextFault>
    requires unread { reader.old.count ≡ 0 }
    requires place { reader.old.places ≡ 1 }
    requires sound { reader.old.fault ≡ None }
    ensures known { StaysKnown (R.remaining source.old) (R.remaining source.new) }
    ensures whole { OnOk result (reader.new.places ≡ 0) }
    ensures sound { OnOk result (reader.new.fault ≡ None) }
    ensures nodes { IfOk result (λ nodes. All (IsNodeAt reader.old.sizes reader.old.version) nodes.items) }
    ensures at_most { IfOk result (λ nodes. length nodes.items ≤ MAX_PROOF_NODES) }
    ensures collected { IfOk result (λ nodes. IsCollected reader.old.sizes reader.old.version (is_some (R.remaining source.old))
        (stream_at reader.old.fed (R.remaining source.old)) (stream_at reader.new.fed (R.remaining source.new)) nodes.items) }
    ensures failed { R.has_failed source.new ≡ (if is_err_and result is_failed_read then true else R.has_failed source.old) }
    ensures fault { is_some (R.remaining source.old) ≡ true →
        IfErr result (λ f. is_environmental f ≡ false → NodeTextFails reader.old.sizes reader.old.version (stream_at reader.old.fed (R.remaining source.old)) f) }
    ensures cut_short { IfOk result (λ nodes. BeforeFailure reader.old.fed (R.remaining source.old) reader.new.fed (R.remaining source.new)
        (λ s t. IsCollected reader.old.sizes reader.old.version true s t nodes.items)) }
    ensures up_to_failed_read { result ≡ Err read_failed → UpToFailure reader.old.fed (R.remaining source.old) (R.remaining source.new)
        (λ s. NodeTextFails reader.old.sizes reader.old.version s read_failed) }
{
    let mut nodes = Vec::new(alloc);
    while let Some(node) = reader.next_node(source)? {
        nodes.push(node)?;
    }
    Ok(nodes)
}

/// Reads a proof as a whole, and checks only its text.
pub fn parse_proof<R: Source>(
    alloc: Global,
    instance: &Instance<'_>,
    source: &mut R,
) -> Result<ReadProof, TextFault>
    ensures read { IfOk result (λ r. (bytes : List ℕ) → R.remaining source.old ≡ Some bytes → IsRead instance.now (stream_of bytes) r.version r.bound r.nodes.items) }
    // For any bytes that the source gives, the result consists of nodes of the instance that are one tree.
    ensures nodes { IfOk result (λ r. AreNodesOf instance.now r.version r.nodes.items) }
    ensures failed { R.has_failed source.new ≡ (if is_err_and result is_failed_read then true else R.has_failed source.old) }
    // The first fault of the text is reported, unless memory runs out or a read fails.
    ensures fault { IfErr result (λ f. is_environmental f ≡ false → (bytes : List ℕ) → R.remaining source.old ≡ Some bytes → IsTextFault instance.now (stream_of bytes) f) }
    // If a read fails, everything in the bytes before it has been read.
    ensures up_to_failed_read { result ≡ Err read_failed → (bytes : List ℕ) → R.remaining source.old ≡ Some bytes →
        IsReadUpToFailedRead instance.now bytes (R.remaining source.new) }
{
    let mut reader = NodeReader::new(alloc, instance, source)?;
    let (version, bound) = (reader.version(), reader.bound());
    let nodes = collect(alloc, &mut reader, source)?;
    reader.finish(source)?;
    Ok(ReadProof {
        version,
        bound,
        nodes,
    })
}
