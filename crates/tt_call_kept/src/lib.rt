//! Bounds of the timetables that keep wishes, from bytes to bytes.
#![tactic(auto)]

mod answer;
mod bounding;
mod checking;
mod fault;
mod files;

pub use bounding::sum_kept;
pub use checking::check_kept;
pub use fault::KeptFault;
pub use files::KeptFiles;
