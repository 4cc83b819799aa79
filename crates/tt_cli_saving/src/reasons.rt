//! Words on why no timetable was found.

use std::alloc::{AllocError, Global};
use std::io::Write;
use tt_inspect::{explain_shortages, explain_tree};
use tt_instance_read::{InstanceFault, read_instance};

/// The line of a search that found neither a timetable nor a reason why there is none.
const UNKNOWN: &str =
    "not known: no timetable was found that breaks no hard rule, and no proof that there is none\n";

/// A search that found no timetable.
#[derive(Clone, Copy)]
pub struct Failed<'a> {
    /// The bytes of the instance.
    pub instance: &'a [u8],
    /// The text of its tree proof, if there is one.
    pub proof: Option<&'a [u8]>,
}

impl<'a> Failed<'a> {
    /// Returns the reason in words.
    fn explain(&self, alloc: Global) -> Result<String, AllocError> {
        let instance = match read_instance(alloc, self.instance) {
            Ok(instance) => instance,
            Err(InstanceFault::OutOfMemory) => return Err(AllocError),
            Err(_) => return String::from_str(alloc, UNKNOWN),
        };
        if let Some(text) = explain_shortages(alloc, &instance)? {
            return Ok(text);
        }
        if let Some(proof) = self.proof
            && let Some(text) = explain_tree(alloc, &instance, proof)?
        {
            return Ok(text);
        }
        String::from_str(alloc, UNKNOWN)
    }

    /// Says the reason on standard error. A failed write has no effect.
    pub fn say_why<E: Write>(&self, alloc: Global, err: &mut E) -> Result<(), AllocError> {
        let text = self.explain(alloc)?;
        let _ = err.write_all(text.as_bytes());
        Ok(())
    }
}
