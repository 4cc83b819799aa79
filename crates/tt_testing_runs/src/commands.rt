//! The program over files in memory.

use crate::memory_files::MemoryFiles;
use std::alloc::Global;
use std::test::Fail;
use tt_cli::run;

/// The status of a run, and its output.
#[derive(Debug, Drop)]
pub struct Outcome {
    pub status: u8,
    pub out: String,
    pub err: String,
}

impl Outcome {
    /// Returns the status, the standard output and the standard error.
    pub fn answer(&self) -> (u8, &str, &str) {
        (self.status, self.out.as_str(), self.err.as_str())
    }
}

/// Runs the program on words, over a memory.
pub fn run_on(alloc: Global, words: &[&str], files: &MemoryFiles) -> Result<Outcome, Fail> {
    let mut owned = Vec::new(alloc);
    for word in words {
        owned.push(String::from_str(alloc, word)?)?;
    }
    let mut out = Vec::new(alloc);
    let mut err = Vec::new(alloc);
    let status = run(&(files, alloc), &owned, &mut out, &mut err);
    Ok(Outcome {
        status,
        out: String::from_utf8(out)?,
        err: String::from_utf8(err)?,
    })
}

/// Runs the program on words, over a memory that has files with these paths and bytes.
pub fn run_with(alloc: Global, words: &[&str], files: &[(&str, &[u8])]) -> Result<Outcome, Fail> {
    let memory = MemoryFiles::new(alloc);
    for (path, bytes) in files {
        memory.put(path, bytes)?;
    }
    run_on(alloc, words, &memory)
}
