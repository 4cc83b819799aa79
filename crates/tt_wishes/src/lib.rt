//! Wishes about a timetable: what they mean, the facts that they are, and the files that spell them.
#![tactic(auto)]

mod facts;
mod fault;
mod format;
mod keeping;
mod laws;
mod lines;
mod parts;
mod reading;
mod rooms;
mod wish;
mod words;

pub use facts::list_root;
pub use fault::WishesFault;
pub use format::{MAX_ROOT, MAX_WISHES};
pub use keeping::{broken_wishes, keeps};
pub use laws::{kept_wishes_fit, wishes_are_facts};
pub use reading::read_wishes;
pub use rooms::RoomList;
pub use tt_instance::Cell as Entry;
pub use wish::{Place, Wish};
