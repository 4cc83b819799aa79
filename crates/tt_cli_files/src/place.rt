//! Names in folders, under which files are written.

use crate::fault::OutputFault;
use crate::identity::{find_id, is_absent};
use crate::standard::is_of_descriptors;
use std::alloc::{AllocError, Global};
use std::fs;
use std::io::ErrorKind;
use std::path::Path;
use std::rt::Files;

/// The maximum number of consecutive links that are followed.
const MAX_LINKS: u32 = 40;

/// The permissions and the group of a file that is replaced.
#[derive(Clone, Copy, Debug, PartialEq, Eq)]
pub struct Rights {
    pub mode: u32,
    pub group: u32,
}

/// A name in a folder, links followed, and the rights of the file that has the name.
#[derive(Debug, Drop)]
pub struct Place {
    path: String,
    rights: Option<Rights>,
}

/// What a path leads to.
#[derive(Debug, Drop)]
pub enum Target {
    /// A path that is no link.
    Name(String),
    /// A file that a process has open.
    Descriptor,
}

/// Returns the folder of a path.
pub fn folder_of(path: &str) -> &str {
    match Path::new(path).parent() {
        Some(folder) => match folder.as_str() {
            "" => ".",
            folder => folder,
        },
        None => ".",
    }
}

/// Checks whether the last part of a path can only be the name of a folder.
pub fn ends_in_folder(path: &str) -> bool {
    path.ends_with('/')
        || path.ends_with("/.")
        || path.ends_with("/..")
        || path == "."
        || path == ".."
}

/// Checks whether a link is one of a process's links to the files that it has open.
fn is_descriptor<R: Files + AllocGlobal>(rt: &R, link: &str) -> Result<bool, OutputFault> {
    let folder = folder_of(link);
    match fs::canonicalize(rt, folder) {
        Ok(folder) => Ok(is_of_descriptors(folder.as_str())),
        Err(fault) if fault.kind() == ErrorKind::OutOfMemory => Err(OutputFault::OutOfMemory),
        Err(_) => Ok(is_of_descriptors(folder)),
    }
}

/// Returns the path that a link leads to.
fn read_target<R: Files + AllocGlobal>(rt: &R, link: &str) -> Result<String, OutputFault> {
    let target = fs::read_link(rt, link)?;
    let path = Path::new(folder_of(link)).join(rt.alloc(), target.as_path())?;
    Ok(path.into_string())
}

/// Follows links from a path.
pub fn follow_links<R: Files + AllocGlobal>(rt: &R, path: &str) -> Result<Target, OutputFault> {
    let mut path = String::from_str(rt.alloc(), path)?;
    for _ in 0..MAX_LINKS {
        match fs::symlink_metadata(rt, path.as_str()) {
            Ok(found) if found.is_symlink() => {
                if is_descriptor(rt, path.as_str())? {
                    return Ok(Target::Descriptor);
                }
                path = read_target(rt, path.as_str())?;
            }
            Ok(_) => return Ok(Target::Name(path)),
            Err(fault) if is_absent(fault.kind()) => return Ok(Target::Name(path)),
            Err(fault) => return Err(OutputFault::from(fault)),
        }
    }
    Err(OutputFault::ManyLinks)
}

impl Place {
    /// Returns the place of a path that is no link; `rights` are those of its file, `None` if there is no file.
    pub fn new(path: String, rights: Option<Rights>) -> Result<Place, OutputFault> {
        if path.as_str().is_empty() {
            return Err(OutputFault::IsEmpty);
        }
        if ends_in_folder(path.as_str()) {
            return Err(OutputFault::EndsInSlash);
        }
        Ok(Place { path, rights })
    }

    /// Returns a copy of the place.
    pub fn copy(&self) -> Result<Place, AllocError> {
        Ok(Place {
            path: self.path.clone()?,
            rights: self.rights,
        })
    }

    /// Returns the path, links followed.
    pub fn path(&self) -> &str {
        self.path.as_str()
    }

    /// Returns the rights of the file at the place, or `None` if there was none.
    pub fn rights(&self) -> Option<Rights> {
        self.rights
    }

    /// Returns the path of the folder that the name is in.
    pub fn folder(&self) -> &str {
        folder_of(self.path.as_str())
    }

    /// Returns the path of another name in the folder.
    pub fn neighbor(&self, alloc: Global, name: &str) -> Result<String, AllocError> {
        let folder = self.folder();
        format!(in alloc; "{folder}/{name}")
    }

    /// Checks whether two places are the same name in the same folder.
    pub fn is_same<R: Files>(&self, rt: &R, other: &Place) -> Result<bool, OutputFault> {
        if self.path() == other.path() {
            return Ok(true);
        }
        if Path::new(self.path()).file_name() != Path::new(other.path()).file_name() {
            return Ok(false);
        }
        match (find_id(rt, self.folder())?, find_id(rt, other.folder())?) {
            (Some(folder), Some(other_folder)) => Ok(folder == other_folder),
            _ => Ok(false),
        }
    }
}
