//! Why a proof can't be written again.

ghost use Rattle.std.specs.Prelude.{◌≡◌};
ghost use Rattle.tt_proof_upgrade.specs.Faults.{IsOfNode, IsFaultOfNode, stop_from_text};

use thiserror::Error;
use tt_proof_check::{CheckFault, NodesFault};
use tt_proof_read::TextFault;
use tt_text::Stop;

/// Why a proof can't be written again.
#[derive(Clone, Copy, Debug, PartialEq, Eq, Error)]
pub enum UpgradeFault {
    /// The proof is refused.
    #[error("{0}")]
    Proof(CheckFault),
    /// The text in version 2 has more than 4,294,967,295 bytes.
    #[error("too large")]
    TooLarge,
}

/// Returns why an upgrade is stopped by a fault of the reader of proofs.
pub fn stop_from_text(fault: TextFault) -> Stop<UpgradeFault>
    ensures { result ≡ stop_from_text fault }
{
    match tt_proof_check::stop_from_text(fault) {
        Stop::Fault(fault) => Stop::Fault(UpgradeFault::Proof(fault)),
        Stop::ReadFailed => Stop::ReadFailed,
        Stop::OutOfMemory => Stop::OutOfMemory,
    }
}

/// Returns the fault for a fault of the nodes of a tree; a file's nodes are numbered with 32 bits.
pub fn node_fault(fault: NodesFault) -> UpgradeFault
    requires { IsOfNode fault }
    ensures { IsFaultOfNode fault result }
{
    match fault {
        NodesFault::Rule(node, fault) => UpgradeFault::Proof(CheckFault::Rule(node as u32, fault)),
        NodesFault::TooDeep(node) => UpgradeFault::Proof(CheckFault::TooDeep(node as u32)),
        NodesFault::NotATree => unreachable!(),
    }
}
