//! Claims about groups as text.
#![tactic(auto)]

mod claim;
mod fault;
mod fields;
mod format;
mod groups;
mod header;
mod laws;
mod lists;
mod reader;

pub use claim::GroupClaim;
pub use fault::GroupTextFault;
pub use laws::read_groups_are_spelled;
pub use reader::GroupReader;
