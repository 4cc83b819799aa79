//! Files that are moved to their places together.

use crate::draft::Draft;
use crate::fault::{OutputFault, Role};
use crate::output::Ready;
use crate::parts::{
    Content, Part, forget_older, move_part, sync_part, undo, undo_all, whereabouts_of, written,
};
use crate::rescue::{Label, Rescued, Unwritten, WriteFault};
use crate::retired::Retired;
use crate::standard::StandardStream;
use std::alloc::{AllocError, Global};
use std::rt::{Clock, Files};

/// A text for a standard stream.
#[derive(Debug, Drop)]
pub struct Printed {
    pub stream: StandardStream,
    pub text: Vec<u8>,
}

/// New files, each whole, that aren't at their places yet, and older files that are to be renamed.
#[derive(Debug, Drop)]
pub struct Batch {
    alloc: Global,
    parts: Vec<Part>,
    retired: Vec<Retired>,
}

/// The first output that failed: its place among the texts, or among the older files, and the reason.
#[derive(Clone, Copy, Debug)]
enum Failure {
    Part(usize, OutputFault),
    Retired(usize, OutputFault),
}

/// Returns the first text that couldn't be written.
fn find_failed(parts: &[Part]) -> Option<Failure> {
    for (place, part) in parts.iter().enumerate() {
        if let Content::Failed(fault, _) = &part.content {
            return Some(Failure::Part(place, *fault));
        }
    }
    None
}

/// Checks whether a text is for standard output.
fn takes_standard_output(parts: &[Part]) -> bool {
    parts.iter().any(|part| {
        matches!(part.content, Content::Standard(StandardStream::Output, _))
    })
}

/// Renames all files, until one can't be.
fn move_all<R: Files + Clock + AllocGlobal>(
    rt: &R,
    parts: &mut [Part],
    retired: &mut [Retired],
) -> Result<Option<Failure>, AllocError> {
    let is_alone = parts.len() == 1 && retired.is_empty();
    for (place, part) in parts.iter_mut().enumerate() {
        if let Some(fault) = move_part(rt, part, is_alone)? {
            return Ok(Some(Failure::Part(place, fault)));
        }
    }
    for (place, file) in retired.iter_mut().enumerate() {
        if let Err(fault) = file.rename(rt) {
            return Ok(Some(Failure::Retired(place, fault)));
        }
    }
    Ok(None)
}

/// Makes the system store the names in the folders; returns the first file whose name couldn't be stored.
fn sync_all<R: Files>(rt: &R, parts: &[Part], retired: &[Retired]) -> Option<Failure> {
    for (place, part) in parts.iter().enumerate() {
        if let Err(fault) = sync_part(rt, part) {
            return Some(Failure::Part(place, fault));
        }
    }
    for (place, file) in retired.iter().enumerate() {
        if let Err(fault) = file.sync(rt) {
            return Some(Failure::Retired(place, fault));
        }
    }
    None
}

/// Renames all files, and makes the system store their names; returns the first failure.
fn put_all<R: Files + Clock + AllocGlobal>(
    rt: &R,
    parts: &mut [Part],
    retired: &mut [Retired],
) -> Result<Option<Failure>, AllocError> {
    if let Some(failure) = find_failed(parts) {
        return Ok(Some(failure));
    }
    if let Some(failure) = move_all(rt, parts, retired)? {
        return Ok(Some(failure));
    }
    forget_older(rt, parts);
    for file in retired.iter_mut() {
        file.settle();
    }
    Ok(sync_all(rt, parts, retired))
}

/// Adds the texts for the standard streams to a list.
fn add_printed(mut printed: Vec<Printed>, parts: Vec<Part>) -> Result<Vec<Printed>, AllocError> {
    for part in parts {
        let Part { label: _, content } = part;
        if let Content::Standard(stream, text) = content {
            printed.push(Printed { stream, text })?;
        }
    }
    Ok(printed)
}

/// Returns the label of the output that failed, and the reason.
fn blamed(
    alloc: Global,
    failure: Failure,
    parts: &[Part],
    retired: &[Retired],
) -> Result<(Label, OutputFault), AllocError> {
    let (label, fault) = match failure {
        Failure::Part(place, fault) => (parts.get(place).map(|part| &part.label), fault),
        Failure::Retired(place, fault) => (retired.get(place).map(|file| &file.label), fault),
    };
    let label = match label {
        Some(label) => label.copy()?,
        None => Label {
            role: Role::Folder,
            path: String::new(alloc),
        },
    };
    Ok((label, fault))
}

/// Restores the older files, and adds where the results are to a list. A page is none: it can be made again, and is removed.
fn rescue<R: Files>(
    rt: &R,
    mut rescued: Vec<Rescued>,
    parts: Vec<Part>,
) -> Result<Vec<Rescued>, AllocError> {
    let is_free = !takes_standard_output(&parts);
    for part in parts {
        if part.label.role == Role::Page {
            undo(rt, &part);
            continue;
        }
        let Part { label, content } = part;
        let role = label.role;
        if let Some(whereabouts) = whereabouts_of(rt, content, is_free) {
            rescued.push(Rescued { role, whereabouts })?;
        }
    }
    Ok(rescued)
}

/// Restores all older files, and removes the new ones.
fn undo_both<R: Files>(rt: &R, parts: &[Part], retired: &[Retired]) {
    for file in retired {
        file.take_back(rt);
    }
    undo_all(rt, parts);
}

/// Restores the older files after a failure, and returns why and where the results are.
fn conclude<R: Files + AllocGlobal>(
    rt: &R,
    failure: Failure,
    parts: Vec<Part>,
    retired: &[Retired],
) -> Result<Unwritten, AllocError> {
    let blamed = blamed(rt.alloc(), failure, &parts, retired);
    let rescued = Vec::with_capacity(rt.alloc(), parts.len());
    match (blamed, rescued) {
        (Ok((output, fault)), Ok(rescued)) => {
            for file in retired {
                file.take_back(rt);
            }
            Ok(Unwritten {
                output,
                fault,
                rescued: Some(rescue(rt, rescued, parts)?),
            })
        }
        _ => {
            undo_both(rt, &parts, retired);
            Err(AllocError)
        }
    }
}

impl Batch {
    /// Returns a batch without files.
    pub fn new(alloc: Global) -> Batch {
        Batch {
            alloc,
            parts: Vec::new(alloc),
            retired: Vec::new(alloc),
        }
    }

    /// Writes a new file next to its place, or the bytes to a device or a pipe. `put` reports a text that couldn't be written. After an error
    /// none of the batch's files are left.
    pub fn write<R: Files + Clock + AllocGlobal>(
        self,
        rt: &R,
        label: Label,
        ready: &mut Ready<R::File>,
        bytes: &[u8],
    ) -> Result<Batch, AllocError> {
        match written(rt, ready, bytes) {
            Ok(content) => self.with(rt, Part { label, content }),
            Err(fault) => {
                undo_all(rt, &self.parts);
                Err(fault)
            }
        }
    }

    /// Adds a text that can't be written. After an error none of the batch's files are left.
    pub fn with_failed<R: Files>(
        self,
        rt: &R,
        label: Label,
        fault: OutputFault,
        bytes: &[u8],
    ) -> Result<Batch, AllocError> {
        match Vec::from_slice(self.alloc, bytes) {
            Ok(text) => {
                let content = Content::Failed(fault, text);
                self.with(rt, Part { label, content })
            }
            Err(fault) => {
                undo_all(rt, &self.parts);
                Err(fault)
            }
        }
    }

    /// Adds a whole new file. After an error none of the batch's files are left.
    pub fn with_draft<R: Files>(
        self,
        rt: &R,
        label: Label,
        draft: Draft,
    ) -> Result<Batch, AllocError> {
        let content = Content::Drafted(draft);
        self.with(rt, Part { label, content })
    }

    fn with<R: Files>(mut self, rt: &R, part: Part) -> Result<Batch, AllocError> {
        match self.parts.push(part) {
            Ok(()) => Ok(self),
            Err(failed) => {
                undo_all(rt, &[failed.value]);
                undo_all(rt, &self.parts);
                Err(AllocError)
            }
        }
    }

    /// Adds an older file, which gets another name when the others are at their places. After an error none of the batch's files are left.
    pub fn retire<R: Files>(
        mut self,
        rt: &R,
        role: Role,
        path: String,
    ) -> Result<Batch, AllocError> {
        let added = match Retired::new(self.alloc, role, path) {
            Ok(file) => self.retired.push(file).map_err(AllocError::from),
            Err(fault) => Err(fault),
        };
        match added {
            Ok(()) => Ok(self),
            Err(fault) => {
                undo_all(rt, &self.parts);
                Err(fault)
            }
        }
    }

    /// Removes the new files.
    pub fn abandon<R: Files>(self, rt: &R) {
        undo_all(rt, &self.parts);
    }

    /// Renames each file to its place, as `put` does, and returns whether it could. If not, the new files are removed.
    pub fn put_or_remove<R: Files + Clock + AllocGlobal>(self, rt: &R) -> bool {
        match self.put(rt) {
            Ok(_) => true,
            Err(WriteFault::Unwritten(unwritten)) => {
                unwritten.remove_kept(rt);
                false
            }
            Err(_) => false,
        }
    }

    /// Renames each file to its place, and returns what is for the standard streams. If one can't be renamed, the older state of all places is
    /// restored, as far as the system allows, and the new files stay next to them under names of their own.
    pub fn put<R: Files + Clock + AllocGlobal>(self, rt: &R) -> Result<Vec<Printed>, WriteFault> {
        let Batch {
            alloc,
            mut parts,
            mut retired,
        } = self;
        // One more than the parts need, so that a line can be added to the texts without an allocation.
        let Ok(printed) = Vec::with_capacity(alloc, parts.len().saturating_add(1)) else {
            undo_all(rt, &parts);
            return Err(WriteFault::OutOfMemory);
        };
        match put_all(rt, &mut parts, &mut retired) {
            Ok(None) => Ok(add_printed(printed, parts)?),
            Ok(Some(failure)) => {
                let unwritten = conclude(rt, failure, parts, &retired)?;
                Err(WriteFault::Unwritten(unwritten))
            }
            Err(fault) => {
                undo_both(rt, &parts, &retired);
                Err(WriteFault::from(fault))
            }
        }
    }
}
