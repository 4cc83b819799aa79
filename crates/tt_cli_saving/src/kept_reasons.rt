//! Words on why no timetable was found that keeps wishes.

use crate::clash::show_clash;
use std::alloc::{AllocError, Global};
use std::io::Write;
use tt_inspect::explain_shortages;
use tt_instance::Instance;
use tt_instance_read::{InstanceFault, read_instance};
use tt_rules::score;
use tt_table::{SolutionFault, read_solution};
use tt_wishes::{WishesFault, broken_wishes, read_wishes};

/// The line of a search whose timetable can't be read again.
const UNKNOWN: &str =
    "not known: no timetable was found that breaks neither a hard rule nor a wish\n";

/// A search that found no timetable that keeps wishes, and the one that it has.
#[derive(Clone, Copy)]
pub struct FailedKept<'a> {
    /// The bytes of the instance.
    pub instance: &'a [u8],
    pub wishes: &'a [u8],
    /// The text of the timetable that breaks hard rules or wishes.
    pub partial: &'a [u8],
}

impl<'a> FailedKept<'a> {
    /// Says how often the timetable breaks hard rules and wishes; nothing if it can't be read.
    fn count(&self, alloc: Global, instance: &Instance<'_>) -> Result<Option<String>, AllocError> {
        let wishes = match read_wishes(alloc, instance, self.wishes) {
            Ok(wishes) => wishes,
            Err(WishesFault::OutOfMemory) => return Err(AllocError),
            Err(_) => return Ok(None),
        };
        let table = match read_solution(alloc, instance, self.partial) {
            Ok(table) => table,
            Err(SolutionFault::OutOfMemory) => return Err(AllocError),
            Err(_) => return Ok(None),
        };
        let hard = score(instance, &table).hard();
        let (broken, all) = (broken_wishes(&table, &wishes), wishes.len());
        let text = format!(in alloc;
            "the partial timetable breaks hard rules {hard} times and {broken} of {all} wishes\n"
        )?;
        Ok(Some(text))
    }

    /// Returns the reason in words: a shortage of the instance itself, or else what the timetable breaks.
    fn explain(&self, alloc: Global) -> Result<String, AllocError> {
        let instance = match read_instance(alloc, self.instance) {
            Ok(instance) => instance,
            Err(InstanceFault::OutOfMemory) => return Err(AllocError),
            Err(_) => return String::from_str(alloc, UNKNOWN),
        };
        if let Some(text) = explain_shortages(alloc, &instance)? {
            return Ok(text);
        }
        match self.count(alloc, &instance)? {
            Some(text) => Ok(text),
            None => String::from_str(alloc, UNKNOWN),
        }
    }

    /// Says on standard error which wishes clash, if that is found, and the reason. A failed write has no effect.
    pub fn say_why<E: Write>(&self, alloc: Global, err: &mut E) -> Result<(), AllocError> {
        let text = self.explain(alloc)?;
        show_clash(alloc, err, self.instance, self.wishes)?;
        let _ = err.write_all(text.as_bytes());
        Ok(())
    }
}
