//! The longest files, and outputs that are closed.

use std::alloc::{AllocError, Global};
use std::io;
use std::io::{Error, ErrorKind, Write};
use std::test::Fail;
use tt_cli::run;
use tt_testing_runs::{MemoryFiles, run_with};
use tt_testing_samples::{WIDE, WIDE_SOLUTION};

/// The maximum number of bytes of an instance or of a solution file.
const LONGEST: usize = 67_108_864;

/// Returns Wide with so many bytes after its end that the file has the maximum length.
fn longest_instance(alloc: Global) -> Result<Vec<u8>, AllocError> {
    let mut bytes = WIDE.as_bytes().to_vec(alloc)?;
    bytes.resize(LONGEST, b' ')?;
    Ok(bytes)
}

#[test]
fn the_longest_files(rt: HostRuntime) -> Result<(), Fail> {
    let mut long = longest_instance(rt.alloc())?;
    let words = ["validate", "a.ctt", "a.sol"];
    let files: [(&str, &[u8]); 2] = [
        ("a.ctt", long.as_slice()),
        ("a.sol", WIDE_SOLUTION.as_bytes()),
    ];
    let outcome = run_with(rt.alloc(), &words, &files)?;
    assert_eq!(rt; (outcome.status, outcome.err.as_str()), (0, ""));
    long.push(b' ')?;
    let files: [(&str, &[u8]); 2] = [("a.ctt", long.as_slice()), ("a.sol", long.as_slice())];
    let outcome = run_with(rt.alloc(), &words, &files)?;
    assert_eq!(rt;
        outcome.answer(),
        (2, "", "refused: instance: too long: a.ctt\n")
    );
    let files: [(&str, &[u8]); 2] = [("a.ctt", WIDE.as_bytes()), ("a.sol", long.as_slice())];
    let outcome = run_with(rt.alloc(), &words, &files)?;
    assert_eq!(rt;
        outcome.answer(),
        (2, "", "refused: solution: too long: a.sol\n")
    );
    Ok(())
}

/// A writer that accepts nothing.
#[derive(Drop)]
struct Closed;

impl Write for Closed {
    fn write(&mut self, _buffer: &[u8]) -> io::Result<usize> {
        Err(Error::from(ErrorKind::BrokenPipe))
    }

    fn flush(&mut self) -> io::Result<()> {
        Err(Error::from(ErrorKind::BrokenPipe))
    }
}

#[test]
fn closed_outputs(rt: HostRuntime) -> Result<(), Fail> {
    let memory = MemoryFiles::new(rt.alloc());
    let runtime = (&memory, rt.alloc());
    let mut words = Vec::new(rt.alloc());
    let mut err = Vec::new(rt.alloc());
    assert_eq!(rt; run(&runtime, &words, &mut Closed, &mut err), 2);
    words.push(String::from_str(rt.alloc(), "--help")?)?;
    assert_eq!(rt; run(&runtime, &words, &mut Closed, &mut err), 2);
    let refused =
        b"refused: cannot write: standard output: broken pipe\nrefused: cannot write: standard output: broken pipe\n";
    assert_eq!(rt; err.as_slice(), refused.as_slice());
    assert_eq!(rt; run(&runtime, &words, &mut Closed, &mut Closed), 2);
    Ok(())
}
