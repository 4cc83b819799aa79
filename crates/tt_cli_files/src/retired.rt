//! Older files that an earlier run left.

use crate::draft::sync_folder;
use crate::fault::{OutputFault, Role};
use crate::place::folder_of;
use crate::rescue::Label;
use std::alloc::{AllocError, Global};
use std::fs;
use std::io::ErrorKind;
use std::rt::Files;

/// Which name an older file has.
#[derive(Clone, Copy, Debug, PartialEq, Eq)]
enum Name {
    /// The one that it had.
    Old,
    /// The one that ends in `.old`, until it gets the first again.
    New,
    /// The one that ends in `.old`, for good.
    Final,
}

/// A file that an earlier run left, to be renamed so that its name ends in `.old`.
#[derive(Debug, Drop)]
pub struct Retired {
    pub label: Label,
    new: String,
    name: Name,
}

impl Retired {
    /// Returns the file of this path, not renamed yet.
    pub fn new(alloc: Global, role: Role, path: String) -> Result<Retired, AllocError> {
        let old = path.as_str();
        let new = format!(in alloc; "{old}.old")?;
        Ok(Retired {
            label: Label { role, path },
            new,
            name: Name::Old,
        })
    }

    /// Renames the file, if it is there.
    pub fn rename<R: Files>(&mut self, rt: &R) -> Result<(), OutputFault> {
        match fs::rename(rt, self.label.path.as_str(), self.new.as_str()) {
            Ok(()) => {
                self.name = Name::New;
                Ok(())
            }
            Err(fault) if fault.kind() == ErrorKind::NotFound => Ok(()),
            Err(fault) => Err(OutputFault::from(fault)),
        }
    }

    /// Lets a renamed file have its new name for good, so that no later failure takes it back.
    pub fn settle(&mut self) {
        if self.name == Name::New {
            self.name = Name::Final;
        }
    }

    /// Makes the system store the file's new name in its folder.
    pub fn sync<R: Files>(&self, rt: &R) -> Result<(), OutputFault> {
        match self.name {
            Name::Old => Ok(()),
            Name::New | Name::Final => sync_folder(rt, folder_of(self.new.as_str())),
        }
    }

    /// Gives the file its name again, unless its new one is final.
    pub fn take_back<R: Files>(&self, rt: &R) {
        if self.name == Name::New {
            let _ = fs::rename(rt, self.new.as_str(), self.label.path.as_str());
        }
    }
}
