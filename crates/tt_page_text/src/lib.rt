//! The texts of a page: names, also in quoted strings, pieces in turn, and the names of days and periods.
#![tactic(auto)]

mod fault;
mod labels;
mod names;
mod page_text;
mod part;
mod quoted;
mod shown;

pub use fault::{LabelsFault, TextFault};
pub use labels::{Labels, put_day, put_period, put_when};
pub use names::{Names, put_quoted_when};
pub use page_text::{MAX_PAGE_BYTES, PAGE_PIECE_BYTES, PageText, put_token};
pub use part::{Part, put, put_counted};
pub use quoted::put_quoted;
pub use shown::put_shown;
