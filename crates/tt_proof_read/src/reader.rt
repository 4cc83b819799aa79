//! A proof, node by node.

ghost use Rattle.std.specs.Prelude.{◌≡◌, ◌<◌, ◌==◌, true, if◌then◌else◌, is_some, Some, None, Ok, Err, IfOk, IfErr, IfSome, MatchResult};
ghost use Rattle.tt_text.specs.Failures.{is_err_and};
ghost use Rattle.tt_text.specs.Feeds.{stream_at, fresh};
ghost use Rattle.tt_proof_read.specs.Answers.{StaysKnown, AgreesWhenCut};
ghost use Rattle.tt_proof_read.specs.Faults.{is_failed_read, ReportsNoOutOfMemory, Gives};
ghost use Rattle.tt_proof_read.specs.Reading.{header_at, end_at};
ghost use Rattle.tt_proof_read.specs.Readers.{IsNodeAt, IsReaderAfter, IsReadingOf, HeaderAgreesWhenCut, NodeAgreesWhenCut};
ghost use Rattle.tt_proof_read.specs.Sizes.{AreSizes};

use crate::fault::TextFault;
use crate::form::ProofForm;
use crate::format::MAX_PROOF_NODES;
use crate::header::{read_end, read_header};
use crate::node::Node;
use crate::nodes::read_node;
use crate::sizes::Sizes;
use crate::tables::Tables;
use std::alloc::Global;
use std::marker::Model;
use tt_instance::Instance;
use tt_leaf::Bound;
use tt_text::{Feed, Source};

/// Reads a proof from one source, node by node, without storing the nodes.
#[derive(Drop)]
pub struct NodeReader {
    alloc: Global,
    feed: Feed,
    form: ProofForm,
    tables: Tables,
    bound: Bound,
    count: u32,
    places: u32,
    fault: Option<TextFault>,
}

impl Model for NodeReader {
    ghost use Rattle.std.specs.Prelude.{◌≡◌, ◌≤◌, ◌+◌, None};
    ghost use Rattle.tt_proof_read.specs.Inner.Pricing.{AreTables};
    ghost use Rattle.tt_proof_read.specs.Readers.{Reader};
    ghost use Rattle.tt_proof_read.specs.declared.format.TheConstants.{MAX_PROOF_NODES};

    ghost Value = { Reader };

    ghost view = { λ a. record { fed = a.feed; sizes = a.form.sizes; version = a.form.version; bound = a.bound; count = a.count; places = a.places; fault = a.fault } };

    ghost invariant = { λ a. record { nodes : a.count ≤ MAX_PROOF_NODES; places : a.places ≤ a.count + 1; tables : AreTables a.form.sizes a.tables; feed : a.fault ≡ None → a.feed.fault ≡ None } };
}

impl NodeReader {
    /// Reads the header of a proof for an instance.
    pub fn new<R: Source>(
        alloc: Global,
        instance: &Instance<'_>,
        source: &mut R,
    ) -> Result<NodeReader, TextFault>
        ensures known { StaysKnown (R.remaining source.old) (R.remaining source.new) }
        ensures failed { R.has_failed source.new ≡ (if is_err_and result is_failed_read then true else R.has_failed source.old) }
        ensures read { is_some (R.remaining source.old) ≡ true →
            Gives (λ r. ((r.version, r.bound), stream_at r.fed (R.remaining source.new))) result (header_at (stream_at fresh (R.remaining source.old))) }
        // A failed read is reported if the bytes before it give a part of the header and no fault.
        ensures cut_short { HeaderAgreesWhenCut (R.remaining source.old) result (R.remaining source.new) }
        ensures start { IfOk result (λ r. (r.count ≡ 0) × (r.places ≡ 1) × (r.fault ≡ None)) }
        ensures sizes { IfOk result (λ r. AreSizes instance.now r.sizes) }
    {
        let Ok(mut feed) = Feed::new(alloc) else {
            return Err(TextFault::OutOfMemory);
        };
        let (version, bound) = read_header(&mut feed, source)?;
        let sizes = Sizes::of(instance);
        let tables = Tables::new(alloc, sizes)?;
        Ok(NodeReader {
            alloc,
            feed,
            form: ProofForm { sizes, version },
            tables,
            bound,
            count: 0,
            places: 1,
            fault: None,
        })
    }

    /// Returns the bound that the header gives.
    pub fn bound(&self) -> Bound
        ensures { result ≡ self.now.bound }
    {
        self.bound
    }

    /// Returns the version that the header gives, 1 or 2.
    pub fn version(&self) -> u8
        ensures { result ≡ self.now.version }
    {
        self.form.version
    }

    /// Returns whether the tree is complete.
    pub fn whole(&self) -> bool
        ensures { result ≡ (self.now.places == 0) }
    {
        self.places == 0
    }

    /// Returns the next node, or `None` once the tree is complete. After a fault it returns the same fault again.
    #[inline(always)]
    pub fn next_node<R: Source>(&mut self, source: &mut R) -> Result<Option<Node>, TextFault>
        ensures known { StaysKnown (R.remaining source.old) (R.remaining source.new) }
        ensures failed { self.old.fault ≡ None → R.has_failed source.new ≡ (if is_err_and result is_failed_read then true else R.has_failed source.old) }
        ensures again { IfSome self.old.fault (λ f. (result ≡ Err f) × (self.new ≡ self.old)) }
        ensures still { IfSome self.old.fault (λ _. source.new ≡ source.old) }
        ensures state { self.old.fault ≡ None → IsReaderAfter self.old result self.new }
        ensures room { IfOk result (λ o. IfSome o (λ _. self.old.count < MAX_PROOF_NODES)) }
        ensures read { self.old.fault ≡ None → is_some (R.remaining source.old) ≡ true →
            IsReadingOf self.old (stream_at self.old.fed (R.remaining source.old)) result (stream_at self.new.fed (R.remaining source.new)) }
        // A failed read is reported if the bytes before it give a part of the node and no fault.
        ensures cut_short { self.old.fault ≡ None → NodeAgreesWhenCut self.old (R.remaining source.old) result self.new.fed (R.remaining source.new) }
        // The numbers of the node are in the range of the instance, and its claims belong to the version.
        ensures node { IfOk result (λ o. IfSome o (IsNodeAt self.old.sizes self.old.version)) }
    {
        if let Some(fault) = self.fault {
            return Err(fault);
        }
        if self.whole() {
            return Ok(None);
        }
        let (form, count) = (self.form, self.count);
        match read_node(
            self.alloc,
            &mut self.feed,
            source,
            form,
            count,
            &mut self.tables,
        ) {
            Ok(node) => {
                self.count += 1;
                match &node {
                    Node::Split(_) => self.places += 1,
                    Node::Leaf(_) => self.places -= 1,
                }
                Ok(Some(node))
            }
            Err(fault) => {
                self.fault = Some(fault);
                Err(fault)
            }
        }
    }

    /// Reads the end of the text. After a fault it returns the same fault again.
    pub fn finish<R: Source>(&mut self, source: &mut R) -> Result<(), TextFault>
        requires { self.old.places ≡ 0 }
        ensures known { StaysKnown (R.remaining source.old) (R.remaining source.new) }
        ensures failed { self.old.fault ≡ None → R.has_failed source.new ≡ (if is_err_and result is_failed_read then true else R.has_failed source.old) }
        ensures again { IfSome self.old.fault (λ f. (result ≡ Err f) × (self.new ≡ self.old)) }
        ensures still { IfSome self.old.fault (λ _. source.new ≡ source.old) }
        ensures fault { IfErr result (λ f. self.new.fault ≡ Some f) }
        ensures state { self.old.fault ≡ None → MatchResult result
            (λ _. self.new ≡ record self.old { fed = self.new.fed })
            (λ f. self.new ≡ record self.old { fed = self.new.fed; fault = Some f }) }
        ensures memory { self.old.fault ≡ None → ReportsNoOutOfMemory result }
        ensures read { self.old.fault ≡ None → is_some (R.remaining source.old) ≡ true →
            Gives (λ _. stream_at self.new.fed (R.remaining source.new)) result (end_at (stream_at self.old.fed (R.remaining source.old))) }
        ensures cut_short { self.old.fault ≡ None → AgreesWhenCut self.old.fed (R.remaining source.old) self.new.fed (R.remaining source.new) (λ _ s. s) result end_at }
    {
        if let Some(fault) = self.fault {
            return Err(fault);
        }
        match read_end(&mut self.feed, source) {
            Ok(()) => Ok(()),
            Err(fault) => {
                self.fault = Some(fault);
                Err(fault)
            }
        }
    }
}
