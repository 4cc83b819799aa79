//! How a page looks.

use tt_page_text::Labels;

/// How a page looks.
#[derive(Clone, Copy)]
pub struct Look<'a> {
    /// The names of the days and of the periods of a day.
    pub labels: &'a Labels,
    /// The style; `STYLE` is the program's.
    pub style: &'a str,
}
