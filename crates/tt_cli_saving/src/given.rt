//! The bytes with which a search begins.

use crate::kept_reasons::FailedKept;
use crate::reasons::Failed;
use std::alloc::{AllocError, Global};
use std::io::Write;

/// The bytes of an instance, and of wishes, if there are any.
#[derive(Clone, Copy)]
pub struct Given<'a> {
    pub instance: &'a [u8],
    pub wishes: Option<&'a [u8]>,
}

impl<'a> Given<'a> {
    /// Says on standard error why no timetable was found, from the partial timetable and the tree proof of the search, if there are any.
    pub fn say_why<E: Write>(
        self,
        alloc: Global,
        err: &mut E,
        partial: Option<&[u8]>,
        proof: Option<&[u8]>,
    ) -> Result<(), AllocError> {
        let Given { instance, wishes } = self;
        if let (Some(wishes), Some(partial)) = (wishes, partial) {
            let failed = FailedKept {
                instance,
                wishes,
                partial,
            };
            return failed.say_why(alloc, err);
        }
        let failed = Failed { instance, proof };
        failed.say_why(alloc, err)
    }
}
