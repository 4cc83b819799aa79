//! Files, the last run over them, and the steps of a scenario.

use crate::commands::{Outcome, run_on};
use crate::expected::Expected;
use crate::memory_files::{MemoryFiles, Refusal};
use crate::script::{Step, with_returns, words_of};
use std::alloc::Global;
use std::test::Fail;
use tt_testing_samples::{edited, repeated, sample};

/// What is still to be seen of the last run: its status and its outputs, of which nothing was said. Then the status is to be 0 and an output empty.
#[derive(Clone, Copy)]
struct Unseen {
    status: bool,
    out: bool,
    err: bool,
}

/// Nothing is to be seen.
const SEEN: Unseen = Unseen {
    status: false,
    out: false,
    err: false,
};

/// All of a run is to be seen.
const UNSEEN: Unseen = Unseen {
    status: true,
    out: true,
    err: true,
};

/// What came in place of what a step expects; `None` if all was as expected.
type Came = Result<Option<String>, Fail>;

/// The files of a scenario, the outcome of the last run over them, and what of it is still to be seen.
#[derive(Drop)]
pub struct Stage {
    alloc: Global,
    files: MemoryFiles,
    last: Outcome,
    unseen: Unseen,
}

impl Stage {
    /// Returns a stage without files before the first run.
    pub fn new(alloc: Global) -> Stage {
        Stage {
            alloc,
            files: MemoryFiles::new(alloc),
            last: Outcome {
                status: 0,
                out: String::new(alloc),
                err: String::new(alloc),
            },
            unseen: SEEN,
        }
    }

    /// Returns a text as what came.
    fn said(&self, text: &str) -> Came {
        Ok(Some(String::from_str(self.alloc, text)?))
    }

    /// Returns the last run as what came.
    fn run_came(&self) -> Came {
        Ok(Some(format!(in self.alloc; "{:?}", self.last.answer())?))
    }

    /// Returns whether what wasn't said of the last run is as it is to be.
    pub fn end_run(&mut self) -> Came {
        let unseen = self.unseen;
        self.unseen = SEEN;
        let is_wrong = unseen.status && self.last.status != 0
            || unseen.out && !self.last.out.is_empty()
            || unseen.err && !self.last.err.is_empty();
        if is_wrong { self.run_came() } else { Ok(None) }
    }

    /// Takes a step that says something of the last run.
    fn look_at_run(&mut self, word: &str, rest: &str, step: &Step<'_>) -> Came {
        match word {
            "status" => {
                self.unseen.status = false;
                if self.last.status == rest.parse::<u8>()? {
                    Ok(None)
                } else {
                    self.run_came()
                }
            }
            "out" => {
                self.unseen.out = false;
                self.compare(rest, step, &self.last.out)
            }
            _ => {
                self.unseen.err = false;
                self.compare(rest, step, &self.last.err)
            }
        }
    }

    /// Takes a step, and returns nothing if all was as expected, and otherwise what came instead.
    pub fn take(&mut self, step: &Step<'_>) -> Came {
        let (word, rest) = step.parts();
        if matches!(word, "status" | "out" | "err") {
            return self.look_at_run(word, rest, step);
        }
        if let Some(came) = self.end_run()? {
            return Ok(Some(came));
        }
        match word {
            "refuse" => self.refuse(rest),
            "tick" => self.tick(rest),
            "put" => self.put(rest, step),
            "add" => self.add(rest, step),
            "edit" => self.edit(rest, step),
            "fail" => self.fail(rest),
            "run" => self.run(rest),
            _ => self.look_at_files(word, rest, step),
        }
    }

    /// Takes a step that says something of the files.
    fn look_at_files(&self, word: &str, rest: &str, step: &Step<'_>) -> Came {
        match word {
            "file" => self.file(rest, step),
            "same" => self.same(rest),
            "no" => self.files.text(rest),
            "files" => self.count(rest),
            _ => self.said("no such step"),
        }
    }

    fn compare(&self, words: &str, step: &Step<'_>, text: &str) -> Came {
        let expected = Expected::of(self.alloc, words, step)?;
        if expected.fits(text) {
            return Ok(None);
        }
        self.said(expected.difference(text))
    }

    fn refuse(&self, what: &str) -> Came {
        let refusal = match what {
            "new files" => Refusal::NewFiles,
            "writes" => Refusal::Writes,
            "renames" => Refusal::Renames,
            "nothing" => Refusal::Nothing,
            _ => return self.said("no such refusal"),
        };
        self.files.refuse(refusal);
        Ok(None)
    }

    fn tick(&self, milliseconds: &str) -> Came {
        self.files.tick(milliseconds.parse()?);
        Ok(None)
    }

    /// Returns the text that a step puts: its block, with carriage returns or several times if so asked, or a sample.
    fn text_of(&self, what: &str, step: &Step<'_>) -> Result<String, Fail> {
        if what.is_empty() {
            return Ok(String::from_str(self.alloc, &step.block)?);
        }
        if what == "crlf" {
            return Ok(with_returns(self.alloc, &step.block)?);
        }
        match what.strip_suffix(" times") {
            Some(times) => Ok(repeated(self.alloc, &step.block, times.parse()?)?),
            None => Ok(String::from_str(self.alloc, sample(what)?)?),
        }
    }

    fn put(&self, words: &str, step: &Step<'_>) -> Came {
        let (path, what) = words.split_once(' ').unwrap_or((words, ""));
        let text = self.text_of(what, step)?;
        self.files.put(path, text.as_bytes())?;
        Ok(None)
    }

    /// Adds a text at the end of a file.
    fn add(&self, words: &str, step: &Step<'_>) -> Came {
        let (path, what) = words.split_once(' ').unwrap_or((words, ""));
        let Some(mut text) = self.files.text(path)? else {
            return self.said("no such file");
        };
        text.push_str(&self.text_of(what, step)?)?;
        self.files.put(path, text.as_bytes())?;
        Ok(None)
    }

    fn edit(&self, path: &str, step: &Step<'_>) -> Came {
        let Some(text) = self.files.text(path)? else {
            return self.said("no such file");
        };
        let changed = edited(self.alloc, &text, &step.block, &step.replacement)?;
        self.files.put(path, changed.as_bytes())?;
        Ok(None)
    }

    fn fail(&self, words: &str) -> Came {
        let (path, read) = words.split_once(' ').unwrap_or((words, ""));
        if self.files.fail(path, read.parse()?) {
            return Ok(None);
        }
        self.said("no such file")
    }

    fn run(&mut self, line: &str) -> Came {
        let words = words_of(self.alloc, line)?;
        self.last = run_on(self.alloc, &words, &self.files)?;
        self.unseen = UNSEEN;
        Ok(None)
    }

    fn file(&self, words: &str, step: &Step<'_>) -> Came {
        let (path, expected) = words.split_once(' ').unwrap_or((words, ""));
        match self.files.text(path)? {
            Some(text) => self.compare(expected, step, &text),
            None => self.said("no such file"),
        }
    }

    fn same(&self, words: &str) -> Came {
        let (path, other) = words.split_once(' ').unwrap_or((words, ""));
        let text = self.files.text(path)?;
        if text.is_some() && text == self.files.text(other)? {
            return Ok(None);
        }
        self.said("other text, or no such file")
    }

    fn count(&self, files: &str) -> Came {
        let count = self.files.count();
        if count == files.parse()? {
            return Ok(None);
        }
        Ok(Some(format!(in self.alloc; "{count} files")?))
    }
}
