//! The reply of a command.

use std::alloc::{AllocError, Global};
use tt_call_answers::Answer;
use tt_cli_files::{Printed, StandardStream};

/// The exit status of a command, and the texts for the standard streams in their order.
#[derive(Debug, Drop)]
pub struct Reply {
    /// 0 means yes, or that the work is done; 1 means that a hard rule is broken, or that there is no timetable.
    pub status: u8,
    pub texts: Vec<Printed>,
}

impl Reply {
    /// Returns a reply of one text for standard output.
    pub fn of(alloc: Global, status: u8, text: Vec<u8>) -> Result<Reply, AllocError> {
        let mut reply = Reply {
            status,
            texts: Vec::new(alloc),
        };
        reply.add(StandardStream::Output, text)?;
        Ok(reply)
    }

    /// Returns a reply without a text.
    pub fn silent(alloc: Global, status: u8) -> Reply {
        Reply {
            status,
            texts: Vec::new(alloc),
        }
    }

    /// Returns the reply with the text and the status of an answer.
    pub fn to(alloc: Global, answer: Answer) -> Result<Reply, AllocError> {
        let Answer { status, out, .. } = answer;
        Reply::of(alloc, status, out)
    }

    /// Adds a text for a standard stream.
    pub fn add(&mut self, stream: StandardStream, text: Vec<u8>) -> Result<(), AllocError> {
        self.texts.push(Printed { stream, text })?;
        Ok(())
    }
}
