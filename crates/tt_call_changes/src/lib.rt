//! The calls that say which lectures moved since an older solution: as lines, and as a page.
#![tactic(auto)]

mod calls;
mod fault;
mod page_fault;
mod page_texts;

pub use calls::changed_page::{ChangedForm, changed_page};
pub use calls::changes::changes;
pub use fault::ChangesFault;
pub use page_fault::ChangedPageFault;
pub use page_texts::ChangedTexts;
