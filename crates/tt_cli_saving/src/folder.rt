//! Files that are written to a folder.

use crate::fault::CommandFault;
use crate::inputs::Inputs;
use crate::targets::{Found, Prepared, Target};
use std::alloc::AllocError;
use std::fs;
use std::rt::Files;
use tt_cli_files::{Batch, Label, Output, OutputFault, Role, make_folder};
use tt_cli_progress::World;

/// A file of a folder by its name, and what it is for.
#[derive(Clone, Copy, Debug, PartialEq, Eq)]
pub struct FolderFile {
    pub role: Role,
    pub name: &'static str,
}

/// A folder that is written to, by its path.
#[derive(Clone, Copy)]
pub struct Folder<'a> {
    pub path: &'a str,
}

/// Adds a text for the file of a path to a batch.
fn write_to<R: World>(
    rt: &R,
    batch: Batch,
    role: Role,
    path: String,
    text: &[u8],
) -> Result<Batch, AllocError> {
    let ready = match Output::find(rt, path.as_str()) {
        Ok(output) => output.open(rt),
        Err(fault) => Err(fault),
    };
    let label = Label { role, path };
    match ready {
        Ok(mut ready) => batch.write(rt, label, &mut ready, text),
        Err(OutputFault::OutOfMemory) => {
            batch.abandon(rt);
            Err(AllocError)
        }
        Err(fault) => batch.with_failed(rt, label, fault, text),
    }
}

impl<'a> Folder<'a> {
    /// Returns the path of a file.
    pub fn path_of<R: AllocGlobal>(self, rt: &R, file: FolderFile) -> Result<String, AllocError> {
        let (folder, name) = (self.path, file.name);
        format!(in rt.alloc(); "{folder}/{name}")
    }

    /// Finds the output for a file; refuses a file that is read.
    pub fn find<R: World>(
        self,
        rt: &R,
        inputs: &Inputs<'_>,
        file: FolderFile,
    ) -> Result<Found, CommandFault> {
        let path = self.path_of(rt, file)?;
        let target = Target {
            role: file.role,
            path: path.as_str(),
        };
        target.find(rt, inputs)
    }

    /// Finds the output for a file, and tries it.
    pub fn prepare<R: World>(
        self,
        rt: &R,
        inputs: &Inputs<'_>,
        file: FolderFile,
    ) -> Result<Prepared<R::File>, CommandFault> {
        self.find(rt, inputs, file)?.prepare(rt)
    }

    /// Refuses files that are read, and two names of the same file.
    pub fn check<R: World>(
        self,
        rt: &R,
        inputs: &Inputs<'_>,
        files: &[FolderFile],
    ) -> Result<(), CommandFault> {
        let mut found: Vec<Found> = Vec::new(rt.alloc());
        for file in files {
            let mut next = self.find(rt, inputs, *file)?;
            for other in &found {
                next = next.check_apart(rt, other)?;
            }
            found.push(next).map_err(AllocError::from)?;
        }
        Ok(())
    }

    /// Adds a text for a file to a batch. If the file can't be written now, the batch says so when its files are renamed.
    pub fn write<R: World>(
        self,
        rt: &R,
        batch: Batch,
        file: FolderFile,
        text: &[u8],
    ) -> Result<Batch, AllocError> {
        let Ok(path) = self.path_of(rt, file) else {
            batch.abandon(rt);
            return Err(AllocError);
        };
        write_to(rt, batch, file.role, path, text)
    }

    /// Checks whether a file is written next to its place and renamed, and so can be written more than once.
    pub fn can_keep<R: World>(self, rt: &R, file: FolderFile) -> Result<bool, AllocError> {
        let path = self.path_of(rt, file)?;
        match Output::find(rt, path.as_str()) {
            Ok(output) => Ok(matches!(output, Output::Replaced { .. })),
            Err(OutputFault::OutOfMemory) => Err(AllocError),
            Err(_) => Ok(false),
        }
    }

    /// Adds a file that an earlier run left to a batch, so that it gets another name.
    pub fn retire<R: World>(
        self,
        rt: &R,
        batch: Batch,
        file: FolderFile,
    ) -> Result<Batch, AllocError> {
        match self.path_of(rt, file) {
            Ok(path) => batch.retire(rt, file.role, path),
            Err(fault) => {
                batch.abandon(rt);
                Err(fault)
            }
        }
    }

    /// Makes the folder if it doesn't exist, and returns whether it was made.
    pub fn make<R: World>(self, rt: &R) -> Result<bool, CommandFault> {
        match make_folder(rt, self.path) {
            Ok(is_made) => Ok(is_made),
            Err(fault) => {
                let target = Target {
                    role: Role::Folder,
                    path: self.path,
                };
                Err(target.refused(rt, fault))
            }
        }
    }

    /// Removes the folder if it was made and is empty.
    pub fn remove_made<R: Files>(self, rt: &R, is_made: bool) {
        if is_made {
            let _ = fs::remove_dir(rt, self.path);
        }
    }
}
