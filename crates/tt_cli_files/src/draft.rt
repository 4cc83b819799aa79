//! A new file that isn't at its place yet.

use crate::fault::OutputFault;
use crate::place::{Place, Rights};
use std::alloc::AllocError;
use std::fs;
use std::fs::{OpenFile, OpenOptions, Permissions};
use std::io::{ErrorKind, Write};
use std::os::unix::fs::{MetadataExt, OpenOptionsExt, PermissionsExt, chown};
use std::rt::{Clock, Files};
use std::time::Duration;

/// The permissions of a file that had none before; the system takes away those that its mask forbids.
const NEW_MODE: u32 = 0o666;

/// The permissions of the owner, which a file has until it has those of the older one.
const OWNER_MODE: u32 = 0o700;

/// The permissions of the group.
const GROUP_MODE: u32 = 0o070;

/// The maximum number of names that are tried for a new file.
const MAX_NAMES: u64 = 1 << 20;

/// A new file next to its place, to be renamed to it once it is whole.
#[derive(Debug, Drop)]
pub struct Draft {
    path: String,
    place: Place,
}

/// The older file at the place of a draft.
#[derive(Debug, Drop)]
pub enum Older {
    /// There is none.
    Absent,
    /// The older file has this second name.
    Linked(String),
    /// The older file can't have a second name.
    Unlinked,
}

/// Returns a number that differs from run to run: the clock's nanoseconds, 0 without a clock.
fn draw_number<R: Clock>(rt: &R) -> u64 {
    let since = rt.since_1970().unwrap_or(Duration::ZERO);
    since
        .as_secs()
        .wrapping_mul(1_000_000_000)
        .wrapping_add(u64::from(since.subsec_nanos()))
}

/// Checks whether an error means only that a file system doesn't support an operation.
fn is_unsupported(kind: ErrorKind) -> bool {
    kind == ErrorKind::Unsupported || kind == ErrorKind::InvalidInput
}

/// Sets the permissions of a new file.
fn set_mode<F: OpenFile>(file: &F, mode: u32) -> Result<(), OutputFault> {
    match file.set_permissions(Permissions::from_mode(mode)) {
        Ok(()) => Ok(()),
        Err(fault) if is_unsupported(fault.kind()) => Ok(()),
        Err(fault) => Err(OutputFault::from(fault)),
    }
}

/// Gives a new file a group, and returns whether it has it then.
fn take_group<R: Files>(
    rt: &R,
    path: &str,
    file: &R::File,
    group: u32,
) -> Result<bool, OutputFault> {
    match file.metadata() {
        Ok(found) if found.gid() == group => Ok(true),
        Ok(_) => Ok(chown(rt, path, None, Some(group)).is_ok()),
        Err(fault) if is_unsupported(fault.kind()) => Ok(true),
        Err(fault) => Err(OutputFault::from(fault)),
    }
}

/// Makes the system store the data that was written to a folder or a file.
fn sync<F: OpenFile>(file: &F) -> Result<(), OutputFault> {
    match file.sync_all() {
        Ok(()) => Ok(()),
        Err(fault) if is_unsupported(fault.kind()) => Ok(()),
        Err(fault) => Err(OutputFault::from(fault)),
    }
}

/// Makes the system store the names in a folder. A folder that may be written but not read can't be opened for that, and isn't stored.
pub fn sync_folder<R: Files>(rt: &R, folder: &str) -> Result<(), OutputFault> {
    match fs::open(rt, folder) {
        Ok(folder) => sync(&folder),
        Err(fault) => match fault.kind() {
            ErrorKind::PermissionDenied | ErrorKind::Unsupported | ErrorKind::NotFound => Ok(()),
            _ => Err(OutputFault::from(fault)),
        },
    }
}

/// Writes all bytes, and has the system store them.
fn write_whole<F: Write + OpenFile + Drop>(mut file: F, bytes: &[u8]) -> Result<(), OutputFault> {
    file.write_all(bytes)?;
    finish(file)
}

/// Has the system store the data that was written to a new file, and closes it.
pub fn finish<F: Write + OpenFile + Drop>(mut file: F) -> Result<(), OutputFault> {
    file.flush()?;
    sync(&file)
}

impl Draft {
    /// Makes an empty file next to the place, under a name that no file has.
    pub fn create<R: Files + Clock + AllocGlobal>(
        rt: &R,
        place: &Place,
    ) -> Result<(Draft, R::File), OutputFault> {
        let mut options = OpenOptions::new();
        options.write(true).create_new(true);
        options.mode(match place.rights() {
            Some(rights) => rights.mode & OWNER_MODE,
            None => NEW_MODE,
        });
        let drawn = draw_number(rt);
        for more in 0..MAX_NAMES {
            let number = drawn.wrapping_add(more);
            let name = format!(in rt.alloc(); "tt-{number:016x}.new")?;
            let draft = Draft {
                path: place.neighbor(rt.alloc(), name.as_str())?,
                place: place.copy()?,
            };
            match options.open(rt, draft.path.as_str()) {
                Ok(file) => return draft.with_rights(rt, file),
                Err(fault) if fault.kind() == ErrorKind::AlreadyExists => {}
                Err(fault) => return Err(OutputFault::from(fault)),
            }
        }
        Err(OutputFault::NoName)
    }

    /// Gives the new file the group and the permissions of the older one. If it can't have the group, the group gets no permissions.
    fn take_rights<R: Files>(
        &self,
        rt: &R,
        file: &R::File,
        rights: Rights,
    ) -> Result<(), OutputFault> {
        if take_group(rt, self.path.as_str(), file, rights.group)? {
            set_mode(file, rights.mode)
        } else {
            set_mode(file, rights.mode & !GROUP_MODE)
        }
    }

    fn with_rights<R: Files>(self, rt: &R, file: R::File) -> Result<(Draft, R::File), OutputFault> {
        if let Some(rights) = self.place.rights()
            && let Err(fault) = self.take_rights(rt, &file, rights)
        {
            self.remove(rt);
            return Err(fault);
        }
        Ok((self, file))
    }

    /// Makes a file next to the place and removes it.
    pub fn try_folder<R: Files + Clock + AllocGlobal>(
        rt: &R,
        place: &Place,
    ) -> Result<(), OutputFault> {
        let (draft, _) = Draft::create(rt, place)?;
        Ok(fs::remove_file(rt, draft.path.as_str())?)
    }

    /// Writes a whole file next to its place; after an error there is no such file.
    pub fn write<R: Files + Clock + AllocGlobal>(
        rt: &R,
        place: &Place,
        bytes: &[u8],
    ) -> Result<Draft, OutputFault> {
        let (draft, file) = Draft::create(rt, place)?;
        match write_whole(file, bytes) {
            Ok(()) => Ok(draft),
            Err(fault) => {
                draft.remove(rt);
                Err(fault)
            }
        }
    }

    /// Returns the place that the new file is for.
    pub fn place(&self) -> &Place {
        &self.place
    }

    /// Renames the file to its place.
    pub fn rename<R: Files>(&self, rt: &R) -> Result<(), OutputFault> {
        Ok(fs::rename(rt, self.path.as_str(), self.place.path())?)
    }

    /// Removes the file.
    pub fn remove<R: Files>(&self, rt: &R) {
        let _ = fs::remove_file(rt, self.path.as_str());
    }

    /// Returns the file's own path, as long as it isn't at its place.
    pub fn into_path(self) -> String {
        let Draft { path, place: _ } = self;
        path
    }

    /// Gives the older file at the place a second name.
    pub fn link_older<R: Files + Clock + AllocGlobal>(&self, rt: &R) -> Result<Older, AllocError> {
        let drawn = draw_number(rt);
        for more in 0..MAX_NAMES {
            let number = drawn.wrapping_add(more);
            let name = format!(in rt.alloc(); "tt-{number:016x}.old")?;
            let older = self.place.neighbor(rt.alloc(), name.as_str())?;
            match fs::hard_link(rt, self.place.path(), older.as_str()) {
                Ok(()) => return Ok(Older::Linked(older)),
                Err(fault) if fault.kind() == ErrorKind::AlreadyExists => {}
                Err(fault) if fault.kind() == ErrorKind::NotFound => return Ok(Older::Absent),
                Err(_) => return Ok(Older::Unlinked),
            }
        }
        Ok(Older::Unlinked)
    }

    /// Restores the older file at the place, and gives the new file its own name again. Returns whether it has that name; if not, the new file
    /// stays at the place.
    pub fn take_back<R: Files>(&self, rt: &R, older: &Older) -> bool {
        let (own, place) = (self.path.as_str(), self.place.path());
        match older {
            Older::Absent => fs::rename(rt, place, own).is_ok(),
            Older::Linked(older) => {
                // A second name first, so that a file is at the place all the time.
                if fs::hard_link(rt, place, own).is_err() {
                    let _ = fs::remove_file(rt, older.as_str());
                    return false;
                }
                if fs::rename(rt, older.as_str(), place).is_err() {
                    let _ = fs::remove_file(rt, own);
                    return false;
                }
                true
            }
            Older::Unlinked => false,
        }
    }
}
