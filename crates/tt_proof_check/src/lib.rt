//! The checker of proofs, and the headline that it certifies.
#![tactic(auto)]

mod checker;
mod fault;
mod headline;
mod laws;
mod preorder;
mod root;
mod stream;
mod visitor;
mod walk;

pub use checker::ProofChecker;
pub use fault::{CertifyFault, CheckFault, NodesFault, Verdict, stop_from_text};
pub use headline::certify;
pub use laws::{derived_bounds_hold, files_have_one_fault, proofs_have_one_fault};
pub use preorder::check_nodes;
pub use root::start_path;
pub use stream::{check_proof, check_proof_on, check_proof_with};
pub use visitor::{NoVisitor, NodeVisitor};
