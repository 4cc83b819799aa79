//! The entries that break a rule together with an earlier one.

use tt_table::Entry;

/// The later entries of a period that break a rule together with an entry: the first, and how many they are.
#[derive(Clone, Copy)]
pub struct Odds {
    pub first: Option<Entry>,
    pub count: u64,
}
