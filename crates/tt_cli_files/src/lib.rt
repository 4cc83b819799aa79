//! Files that are written whole and are never lost.
#![tactic(auto)]

mod batch;
mod draft;
mod fault;
mod folder;
mod identity;
mod output;
mod parts;
mod place;
mod rescue;
mod retired;
mod standard;

pub use batch::{Batch, Printed};
pub use draft::{Draft, finish};
pub use fault::{OutputFault, Role};
pub use folder::make_folder;
pub use output::{Output, Ready};
pub use place::Place;
pub use rescue::{Label, Rescued, Unwritten, Whereabouts, WriteFault};
pub use standard::{STANDARD, StandardStream};
