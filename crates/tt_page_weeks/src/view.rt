//! How weeks are shown.

use tt_page_text::Labels;

/// How weeks are shown.
#[derive(Clone, Copy)]
pub struct View<'a> {
    /// The names of the days and of the periods of a day.
    pub labels: &'a Labels,
    /// Whether lectures have links to the other weeks and to the courses of the page.
    pub is_linked: bool,
}
