//! The files that a command writes.

use crate::fault::CommandFault;
use crate::inputs::Inputs;
use crate::reply::Reply;
use std::alloc::AllocError;
use std::rt::Files;
use tt_cli_files::{Batch, Label, Output, OutputFault, Ready, Role, StandardStream};
use tt_cli_progress::World;

/// A file that a command is to write, by its role and its path.
#[derive(Clone, Copy, Debug)]
pub struct Target<'a> {
    pub role: Role,
    pub path: &'a str,
}

/// An output that has been found.
#[derive(Debug, Drop)]
pub struct Found {
    pub label: Label,
    pub output: Output,
}

/// An output that has been tried.
#[derive(Drop)]
pub struct Prepared<F> {
    pub label: Label,
    pub ready: Ready<F>,
}

impl<'a> Target<'a> {
    /// Returns the fault of the output.
    pub fn refused<R: AllocGlobal>(self, rt: &R, fault: OutputFault) -> CommandFault {
        match Label::new(rt.alloc(), self.role, self.path) {
            Ok(label) => CommandFault::from(label.with_fault(fault)),
            Err(_) => CommandFault::OutOfMemory,
        }
    }

    /// Finds the output; refuses a file that is read too, and an input at which the system can't look.
    pub fn find<R: World>(self, rt: &R, inputs: &Inputs<'_>) -> Result<Found, CommandFault> {
        let output = match Output::find(rt, self.path) {
            Ok(output) => output,
            Err(fault) => return Err(self.refused(rt, fault)),
        };
        for file in inputs.files() {
            match output.is_read(rt, file.path) {
                Ok(false) => {}
                Ok(true) => return Err(self.refused(rt, OutputFault::IsRead)),
                Err(fault) => return Err(file.unseen(rt.alloc(), fault)),
            }
        }
        Ok(Found {
            label: Label::new(rt.alloc(), self.role, self.path)?,
            output,
        })
    }
}

impl Found {
    /// Refuses the output if another one is the same file.
    pub fn check_apart<R: Files>(self, rt: &R, other: &Found) -> Result<Found, CommandFault> {
        match self.output.is_same(rt, &other.output) {
            Ok(false) => Ok(self),
            Ok(true) => {
                let fault = OutputFault::IsOutput(other.label.role);
                Err(CommandFault::from(self.label.with_fault(fault)))
            }
            Err(fault) => Err(CommandFault::from(self.label.with_fault(fault))),
        }
    }

    /// Checks whether an input is the file that is written.
    pub fn is_read<R: World>(&self, rt: &R, path: &str) -> Result<bool, CommandFault> {
        match self.output.is_read(rt, path) {
            Ok(is_read) => Ok(is_read),
            Err(OutputFault::OutOfMemory) => Err(CommandFault::OutOfMemory),
            Err(_) => Ok(false),
        }
    }

    /// Tries the output.
    pub fn prepare<R: World>(self, rt: &R) -> Result<Prepared<R::File>, CommandFault> {
        let Found { label, output } = self;
        match output.prepare(rt) {
            Ok(ready) => Ok(Prepared { label, ready }),
            Err(fault) => Err(CommandFault::from(label.with_fault(fault))),
        }
    }
}

impl<F> Prepared<F> {
    /// Adds a text for the output to a batch.
    pub fn write<R: World<File = F>>(
        &mut self,
        rt: &R,
        batch: Batch,
        text: &[u8],
    ) -> Result<Batch, AllocError> {
        match self.label.copy() {
            Ok(label) => batch.write(rt, label, &mut self.ready, text),
            Err(fault) => {
                batch.abandon(rt);
                Err(fault)
            }
        }
    }

    /// Adds a text for the output to a batch, if there is one.
    pub fn write_given<R: World<File = F>>(
        &mut self,
        rt: &R,
        batch: Batch,
        text: &Option<Vec<u8>>,
    ) -> Result<Batch, AllocError> {
        match text {
            Some(text) => self.write(rt, batch, text),
            None => Ok(batch),
        }
    }
}

/// Puts all files of a batch in their places, and returns the reply of the command with its line.
pub fn reply_with<R: World>(
    rt: &R,
    batch: Batch,
    status: u8,
    line: Vec<u8>,
) -> Result<Reply, CommandFault> {
    let mut reply = Reply {
        status,
        texts: batch.put(rt).map_err(CommandFault::from)?,
    };
    reply.add(StandardStream::Output, line)?;
    Ok(reply)
}
