//! The files of the commands: how they are read and written, what a search stores on the way, and words on why it found no timetable.
#![tactic(auto)]

mod clash;
mod fault;
mod folder;
mod front;
mod given;
mod inputs;
mod keeper;
mod kept_reasons;
mod proof_folder;
mod reasons;
mod remembering;
mod reply;
mod saving;
mod shelf;
mod sources;
mod targets;

pub use clash::show_clash;
pub use fault::CommandFault;
pub use folder::{Folder, FolderFile};
pub use front::WISHES_LINE;
pub use given::Given;
pub use inputs::{Input, InputFile, Inputs, MAX_FILE_BYTES, Naming, ReadFault, read_if_given};
pub use keeper::{Keeper, KeptTable};
pub use proof_folder::{GROUPS, PRICES, ProofFolder, with_wishes_line};
pub use remembering::Remembering;
pub use reply::Reply;
pub use saving::kept_table;
pub use shelf::{NoShelf, Shelf};
pub use sources::{
    LastUnread, ProofFile, fault_over, fault_over_named, fault_over_proof, proof_files,
};
pub use targets::{Found, Prepared, Target, reply_with};
