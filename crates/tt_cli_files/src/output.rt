//! The output file of a command: chosen before the command reads anything, and tried before it searches.

use crate::draft::Draft;
use crate::fault::OutputFault;
use crate::identity::{FileId, find_id, is_absent};
use crate::place::{Place, Rights, Target, follow_links};
use crate::standard::{STANDARD, StandardStream, find_stream, is_standard_input, path_of_input};
use std::fs;
use std::fs::{Metadata, OpenOptions};
use std::os::unix::fs::MetadataExt;
use std::rt::{Clock, Files};

/// The bits of a file's mode that determine who may read, write and run it.
const PERMISSIONS: u32 = 0o777;

/// How a device or a pipe is written to.
#[derive(Clone, Copy, Debug, PartialEq, Eq)]
pub enum Manner {
    FromFront,
    /// At the end of what is there, whoever has written it.
    AtEnd,
}

/// The place to which a command writes one file.
#[derive(Debug, Drop)]
pub enum Output {
    /// A regular file, or no file yet: replaced by a new file.
    Replaced {
        place: Place,
        file: Option<FileId>,
    },
    /// A device, a pipe or a file that some process has open: opened and written.
    Opened {
        path: String,
        manner: Manner,
        file: Option<FileId>,
    },
    /// A standard stream, by any name.
    Standard {
        stream: StandardStream,
        file: Option<FileId>,
    },
}

/// An output that has been tried.
#[derive(Drop)]
pub enum Ready<F> {
    Place(Place),
    Stream(F),
    Standard(StandardStream),
}

fn standard<R: Files>(rt: &R, stream: StandardStream) -> Result<Output, OutputFault> {
    Ok(Output::Standard {
        stream,
        file: stream.find_single(rt)?,
    })
}

/// Returns the output for a file that is there and is no standard stream.
fn existing<R: Files + AllocGlobal>(
    rt: &R,
    path: &str,
    found: &Metadata,
) -> Result<Output, OutputFault> {
    let file = FileId::of_single(found);
    let manner = match follow_links(rt, path)? {
        Target::Name(name) if found.is_file() => {
            let rights = Rights {
                mode: found.mode() & PERMISSIONS,
                group: found.gid(),
            };
            return Ok(Output::Replaced {
                place: Place::new(name, Some(rights))?,
                file,
            });
        }
        Target::Name(_) => Manner::FromFront,
        Target::Descriptor => Manner::AtEnd,
    };
    Ok(Output::Opened {
        path: String::from_str(rt.alloc(), path)?,
        manner,
        file,
    })
}

/// Returns the output for something that was found at a path.
fn found_output<R: Files + AllocGlobal>(
    rt: &R,
    path: &str,
    found: &Metadata,
) -> Result<Output, OutputFault> {
    if found.is_dir() {
        return Err(OutputFault::IsFolder);
    }
    if let Some(file) = FileId::of(found) {
        if let Some(stream) = find_stream(rt, file)? {
            return standard(rt, stream);
        }
        if found.is_file() && is_standard_input(rt, file)? {
            return Err(OutputFault::IsStandardInput);
        }
    }
    existing(rt, path, found)
}

/// Returns the output for a path at which nothing is.
fn new_output<R: Files + AllocGlobal>(rt: &R, path: &str) -> Result<Output, OutputFault> {
    match follow_links(rt, path)? {
        Target::Name(name) => Ok(Output::Replaced {
            place: Place::new(name, None)?,
            file: None,
        }),
        Target::Descriptor => Ok(Output::Opened {
            path: String::from_str(rt.alloc(), path)?,
            manner: Manner::AtEnd,
            file: None,
        }),
    }
}

impl Output {
    /// Finds the output that a path leads to.
    pub fn find<R: Files + AllocGlobal>(rt: &R, path: &str) -> Result<Output, OutputFault> {
        if path == STANDARD {
            return standard(rt, StandardStream::Output);
        }
        if path.is_empty() {
            return Err(OutputFault::IsEmpty);
        }
        match fs::metadata(rt, path) {
            Ok(found) => found_output(rt, path, &found),
            Err(fault) if is_absent(fault.kind()) => new_output(rt, path),
            Err(fault) => Err(OutputFault::from(fault)),
        }
    }

    /// Checks whether an input is the file that is written. An error means that the system can't look at the input's path.
    pub fn is_read<R: Files>(&self, rt: &R, input: &str) -> Result<bool, OutputFault> {
        let input = path_of_input(input);
        match (self.file(), find_id(rt, input)?) {
            (Some(file), Some(read)) => Ok(file == read),
            _ => Ok(self.has_path(input)),
        }
    }

    /// Checks whether two outputs are the same file, the same stream, or the same name in the same folder. A character device is none.
    pub fn is_same<R: Files>(&self, rt: &R, other: &Output) -> Result<bool, OutputFault> {
        match (self.file(), other.file()) {
            (Some(file), Some(other_file)) => Ok(file == other_file),
            _ => self.has_name_of(rt, other),
        }
    }

    fn file(&self) -> Option<FileId> {
        match self {
            Output::Replaced { file, .. }
            | Output::Opened { file, .. }
            | Output::Standard { file, .. } => *file,
        }
    }

    fn has_path(&self, path: &str) -> bool {
        match self {
            Output::Replaced { place, .. } => place.path() == path,
            Output::Opened { .. } | Output::Standard { .. } => false,
        }
    }

    fn has_name_of<R: Files>(&self, rt: &R, other: &Output) -> Result<bool, OutputFault> {
        match (self, other) {
            (
                Output::Replaced { place, .. },
                Output::Replaced {
                    place: other_place,
                    ..
                },
            ) => place.is_same(rt, other_place),
            (
                Output::Standard { stream, .. },
                Output::Standard {
                    stream: other_stream,
                    ..
                },
            ) => Ok(stream == other_stream),
            _ => Ok(false),
        }
    }

    /// Tries to write: makes a file in the folder and removes it, or opens the device or the pipe.
    pub fn prepare<R: Files + Clock + AllocGlobal>(
        self,
        rt: &R,
    ) -> Result<Ready<R::File>, OutputFault> {
        if let Output::Replaced { place, .. } = &self {
            Draft::try_folder(rt, place)?;
        }
        self.open(rt)
    }

    /// Opens a device or a pipe; a file is opened when it is written.
    pub fn open<R: Files>(self, rt: &R) -> Result<Ready<R::File>, OutputFault> {
        match self {
            Output::Replaced { place, file: _ } => Ok(Ready::Place(place)),
            Output::Opened {
                path,
                manner,
                file: _,
            } => {
                let mut options = OpenOptions::new();
                options.write(true);
                options.append(manner == Manner::AtEnd);
                Ok(Ready::Stream(options.open(rt, path.as_str())?))
            }
            Output::Standard { stream, file: _ } => Ok(Ready::Standard(stream)),
        }
    }
}
