//! What a page is made of.

use crate::look::Look;
use crate::sheet::Shown;
use tt_page_text::Plan;
use tt_rules::Score;

/// What a page is made of: a timetable, what is shown of it, its score, and how it looks.
#[derive(Clone, Copy)]
pub struct PageContent<'a, 'w, 'i> {
    pub plan: &'a Plan<'w, 'i>,
    pub shown: Shown<'a>,
    pub score: &'a Score,
    pub look: &'a Look<'a>,
}
