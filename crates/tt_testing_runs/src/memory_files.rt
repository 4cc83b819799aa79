//! A file system in memory that can be written.

use std::alloc::{Allocator, Global};
use std::cell::{Cell, RefCell};
use std::fs::{Metadata, OpenFile, OpenOptions};
use std::io;
use std::io::{BufRead, Error, ErrorKind, Lines, Read, Seek, SeekFrom, Write};
use std::rt::{Clock, Files};
use std::test::Fail;
use std::time::Duration;

/// The operations that are refused.
#[derive(Clone, Copy, Debug, PartialEq, Eq)]
pub enum Refusal {
    Nothing,
    NewFiles,
    Writes,
    Renames,
}

/// A file. The read `fails_at`, counted from 1 each time that the file is opened, fails; 0 means that none does.
#[derive(Drop)]
struct MemoryFile {
    path: String,
    bytes: Vec<u8>,
    fails_at: u64,
}

/// Files that can be read, made, written, renamed and removed.
#[derive(Drop)]
pub struct MemoryFiles {
    alloc: Global,
    entries: RefCell<Vec<MemoryFile>>,
    refusal: Cell<Refusal>,
    /// The milliseconds that the clock moves each time that it is read, and those that it has moved.
    tick: Cell<u64>,
    moved: Cell<u64>,
}

/// An opened file: reads are made from a copy, of which so many bytes were read, and writes go to the file. The read `fails_in` from now fails.
#[derive(Drop)]
pub struct OpenMemoryFile<'s> {
    memory: &'s MemoryFiles,
    path: String,
    copy: Vec<u8>,
    read: usize,
    fails_in: u64,
}

/// The name of the file that standard input reads.
const STANDARD_INPUT: &str = "standard";

/// The rest of standard input.
#[derive(Drop)]
pub struct OpenMemoryInput {
    rest: Vec<u8>,
}

impl Read for OpenMemoryInput {
    fn read(&mut self, buffer: &mut [u8]) -> io::Result<usize> {
        let count = buffer.len().min(self.rest.len());
        let (piece, _) = self.rest.split_at(count);
        buffer[..count].copy_from_slice(piece);
        self.rest.drain(..count);
        Ok(count)
    }
}

impl BufRead for OpenMemoryInput {
    fn fill_buf(&mut self) -> io::Result<&[u8]> {
        Ok(self.rest.as_slice())
    }

    fn consume(&mut self, amount: usize) {
        let count = amount.min(self.rest.len());
        self.rest.drain(..count);
    }
}

fn fault(kind: ErrorKind) -> Error {
    Error::from(kind)
}

impl MemoryFiles {
    /// Returns a memory without files, which refuses nothing and whose clock has stopped.
    pub fn new(alloc: Global) -> MemoryFiles {
        MemoryFiles {
            alloc,
            entries: RefCell::new(Vec::new(alloc)),
            refusal: Cell::new(Refusal::Nothing),
            tick: Cell::new(0),
            moved: Cell::new(0),
        }
    }

    /// Refuses these operations from now on.
    pub fn refuse(&self, refusal: Refusal) {
        self.refusal.set(refusal);
    }

    /// Moves the clock by this many milliseconds each time that it is read from now on.
    pub fn tick(&self, milliseconds: u64) {
        self.tick.set(milliseconds);
    }

    /// Lets a read of a file fail from now on, if the file exists, and returns whether it does.
    pub fn fail(&self, path: &str, read: u64) -> bool {
        let Ok(mut entries) = self.entries.try_borrow_mut() else {
            return false;
        };
        for entry in entries.iter_mut() {
            if entry.path.as_str() == path {
                entry.fails_at = read;
                return true;
            }
        }
        false
    }

    /// Puts bytes into a file, in place of what it had, regardless of the refusal.
    pub fn put(&self, path: &str, bytes: &[u8]) -> Result<(), Fail> {
        let _ = self.remove(path);
        match self.insert(path, bytes) {
            Ok(()) => Ok(()),
            Err(_) => Err(Fail::new(format_args!("{path} was not put there"))),
        }
    }

    fn insert(&self, path: &str, text: &[u8]) -> io::Result<()> {
        let Ok(mut entries) = self.entries.try_borrow_mut() else {
            return Err(fault(ErrorKind::Other));
        };
        let mut bytes = Vec::new(self.alloc);
        bytes.extend_from_slice(text)?;
        let path = String::from_str(self.alloc, path)?;
        match entries.push(MemoryFile {
            path,
            bytes,
            fails_at: 0,
        }) {
            Ok(()) => Ok(()),
            Err(_) => Err(fault(ErrorKind::OutOfMemory)),
        }
    }

    /// Returns the text of a file, if it exists.
    pub fn text(&self, path: &str) -> Result<Option<String>, Fail> {
        match self.copied(path) {
            Ok(bytes) => Ok(Some(String::from_utf8(bytes)?)),
            Err(_) => Ok(None),
        }
    }

    /// Returns the number of files.
    pub fn count(&self) -> usize {
        match self.entries.try_borrow() {
            Ok(entries) => entries.len(),
            Err(_) => 0,
        }
    }

    fn append(&self, path: &str, bytes: &[u8]) -> io::Result<()> {
        let Ok(mut entries) = self.entries.try_borrow_mut() else {
            return Err(fault(ErrorKind::Other));
        };
        for entry in entries.iter_mut() {
            if entry.path.as_str() == path {
                return match entry.bytes.extend_from_slice(bytes) {
                    Ok(()) => Ok(()),
                    Err(_) => Err(fault(ErrorKind::OutOfMemory)),
                };
            }
        }
        Err(fault(ErrorKind::NotFound))
    }

    fn add(&self, path: &str) -> io::Result<()> {
        if self.refusal.get() == Refusal::NewFiles {
            return Err(fault(ErrorKind::PermissionDenied));
        }
        if self.copied(path).is_ok() {
            return Err(fault(ErrorKind::AlreadyExists));
        }
        self.insert(path, b"")
    }

    fn copied(&self, path: &str) -> io::Result<Vec<u8>> {
        let Ok(entries) = self.entries.try_borrow() else {
            return Err(fault(ErrorKind::Other));
        };
        for entry in entries.iter() {
            if entry.path.as_str() == path {
                let mut bytes = Vec::new(self.alloc);
                bytes.extend_from_slice(&entry.bytes)?;
                return Ok(bytes);
            }
        }
        Err(fault(ErrorKind::NotFound))
    }

    /// Returns which read of a file fails, or 0.
    fn fails_at(&self, path: &str) -> u64 {
        let Ok(entries) = self.entries.try_borrow() else {
            return 0;
        };
        for entry in entries.iter() {
            if entry.path.as_str() == path {
                return entry.fails_at;
            }
        }
        0
    }

    /// Changes the path of a file.
    fn turn(&self, from: &str, to: &str) -> io::Result<()> {
        let Ok(mut entries) = self.entries.try_borrow_mut() else {
            return Err(fault(ErrorKind::Other));
        };
        for entry in entries.iter_mut() {
            if entry.path.as_str() == from {
                entry.path = String::from_str(self.alloc, to)?;
                return Ok(());
            }
        }
        Err(fault(ErrorKind::NotFound))
    }

    /// Removes a file, if it exists.
    fn remove(&self, path: &str) -> io::Result<()> {
        let Ok(mut entries) = self.entries.try_borrow_mut() else {
            return Err(fault(ErrorKind::Other));
        };
        entries.retain(|entry| entry.path.as_str() != path);
        Ok(())
    }
}

impl<'s> Read for OpenMemoryFile<'s> {
    fn read(&mut self, buffer: &mut [u8]) -> io::Result<usize> {
        let fails = self.fails_in == 1;
        self.fails_in = self.fails_in.saturating_sub(1);
        if fails {
            return Err(fault(ErrorKind::Other));
        }
        let rest = self.copy.get(self.read..).unwrap_or(&[]);
        let count = buffer.len().min(rest.len());
        buffer[..count].copy_from_slice(&rest[..count]);
        self.read = self.read.saturating_add(count);
        Ok(count)
    }
}

impl<'s> Write for OpenMemoryFile<'s> {
    fn write(&mut self, buffer: &[u8]) -> io::Result<usize> {
        // Something is written before the rest is refused.
        if self.memory.refusal.get() == Refusal::Writes {
            self.memory.append(&self.path, b"?")?;
            return Err(fault(ErrorKind::StorageFull));
        }
        self.memory.append(&self.path, buffer)?;
        Ok(buffer.len())
    }

    fn flush(&mut self) -> io::Result<()> {
        Ok(())
    }
}

impl<'s> Seek for OpenMemoryFile<'s> {
    fn seek(&mut self, _to: SeekFrom) -> io::Result<u64> {
        Err(fault(ErrorKind::Unsupported))
    }
}

impl<'s> OpenFile for OpenMemoryFile<'s> {
    fn metadata(&self) -> io::Result<Metadata> {
        Err(fault(ErrorKind::Unsupported))
    }

    fn set_len(&self, _size: u64) -> io::Result<()> {
        Err(fault(ErrorKind::Unsupported))
    }

    fn sync_all(&self) -> io::Result<()> {
        Ok(())
    }

    fn sync_data(&self) -> io::Result<()> {
        Ok(())
    }
}

impl<'s> Files for &'s MemoryFiles {
    type File = OpenMemoryFile<'s>;

    type Dir = OpenMemoryFile<'s>;

    fn open_file(&self, how: &OpenOptions, path: &str) -> io::Result<OpenMemoryFile<'s>> {
        if how.asks_create_new() {
            self.add(path)?;
        }
        Ok(OpenMemoryFile {
            memory: self,
            path: String::from_str(self.alloc, path)?,
            copy: self.copied(path)?,
            read: 0,
            fails_in: self.fails_at(path),
        })
    }

    fn open_dir(&self, _path: &str) -> io::Result<OpenMemoryFile<'s>> {
        Err(fault(ErrorKind::Unsupported))
    }

    fn metadata(&self, _path: &str) -> io::Result<Metadata> {
        Err(fault(ErrorKind::Unsupported))
    }

    fn symlink_metadata(&self, _path: &str) -> io::Result<Metadata> {
        Err(fault(ErrorKind::Unsupported))
    }

    fn copy(&self, _from: &str, _to: &str) -> io::Result<u64> {
        Err(fault(ErrorKind::Unsupported))
    }

    fn rename(&self, from: &str, to: &str) -> io::Result<()> {
        if self.refusal.get() == Refusal::Renames {
            return Err(fault(ErrorKind::IsADirectory));
        }
        self.remove(to)?;
        self.turn(from, to)
    }

    fn remove_file(&self, path: &str) -> io::Result<()> {
        self.remove(path)
    }

    fn create_dir(&self, _path: &str) -> io::Result<()> {
        Err(fault(ErrorKind::Unsupported))
    }

    fn remove_dir(&self, _path: &str) -> io::Result<()> {
        Err(fault(ErrorKind::Unsupported))
    }

    fn remove_dir_all<B: Allocator>(&self, _alloc: B, _path: &str) -> io::Result<()> {
        Err(fault(ErrorKind::Unsupported))
    }
}

/// Standard input with the text of the file named standard.
impl<'s> Input for &'s MemoryFiles {
    type Reader = OpenMemoryInput;

    fn read_line<A: Allocator + Clone>(&self, buf: &mut String<A>) -> io::Result<usize> {
        self.reader().read_line(buf)
    }

    fn lines<A: Allocator>(&self, alloc: A) -> Lines<OpenMemoryInput, A> {
        self.reader().lines(alloc)
    }

    fn reader(&self) -> OpenMemoryInput {
        OpenMemoryInput {
            rest: self.copied(STANDARD_INPUT).unwrap_or(Vec::new(self.alloc)),
        }
    }
}

impl<'s> Clock for &'s MemoryFiles {
    fn monotonic(&self) -> io::Result<Duration> {
        let moved = self.moved.get().saturating_add(self.tick.get());
        self.moved.set(moved);
        Ok(Duration::from_millis(moved))
    }

    /// The time of day never changes, so new files have the same names in each run.
    fn since_1970(&self) -> io::Result<Duration> {
        Ok(Duration::ZERO)
    }
}
