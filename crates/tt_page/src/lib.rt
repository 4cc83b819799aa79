//! The page of a timetable's week: one file of HTML, with nothing from outside.
#![tactic(auto)]

mod changed;
mod content;
mod courses;
mod fault;
mod heading;
mod look;
mod pages;
mod proved;
mod sheet;
mod style;

pub use changed::Moves;
pub use fault::PageFault;
pub use look::Look;
pub use pages::{page, text_of};
pub use proved::Proved;
pub use sheet::{Sheet, Shown};
pub use style::STYLE;
pub use tt_page_text::{Labels, LabelsFault, MAX_PAGE_BYTES, PageText, TextFault, put_shown};
