//! Timetables that are stored during a search.

use crate::keeper::KeptTable;
use crate::targets::Prepared;
use std::alloc::Global;
use tt_instance_read::read_instance;

/// Returns the file in which timetables are stored on the way, if they are to be stored and the bytes spell an instance.
pub fn kept_table<'k, F>(
    alloc: Global,
    instance: &'k [u8],
    out: &'k mut Prepared<F>,
    keeps: bool,
    is_strict: bool,
) -> Option<KeptTable<'k, F>> {
    if !keeps {
        return None;
    }
    let instance = read_instance(alloc, instance).ok()?;
    Some(KeptTable::new(out, instance, is_strict))
}
