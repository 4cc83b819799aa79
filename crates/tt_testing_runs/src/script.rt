//! The text of scenarios: steps, each a line, and their blocks of further lines.

use std::alloc::{AllocError, Global};

/// A step: the number of its line, what it says, and the lines that follow it and begin with `|` or `-`, and with `+`, each with a line feed.
/// The last line has none if a line that begins with `\` follows.
#[derive(Drop)]
pub struct Step<'t> {
    pub number: usize,
    pub line: &'t str,
    pub block: String,
    pub replacement: String,
}

impl<'t> Step<'t> {
    /// Returns a step without a block.
    fn new(alloc: Global, number: usize, line: &'t str) -> Step<'t> {
        Step {
            number,
            line,
            block: String::new(alloc),
            replacement: String::new(alloc),
        }
    }

    /// Returns the first word and the rest of the line.
    pub fn parts(&self) -> (&'t str, &'t str) {
        self.line.split_once(' ').unwrap_or((self.line, ""))
    }
}

/// Adds a line of a block, without its mark.
fn add_line(block: &mut String, line: &str) -> Result<(), AllocError> {
    block.push_str(line.strip_prefix(' ').unwrap_or(line))?;
    block.push('\n')?;
    Ok(())
}

/// Adds a line to the block of the last step, if it is one of a block, and returns whether it is.
fn add_to_block(steps: &mut Vec<Step<'_>>, line: &str) -> Result<bool, AllocError> {
    let Some(step) = steps.last_mut() else {
        return Ok(false);
    };
    if let Some(rest) = line.strip_prefix('|') {
        add_line(&mut step.block, rest)?;
    } else if let Some(rest) = line.strip_prefix('-') {
        add_line(&mut step.block, rest)?;
    } else if let Some(rest) = line.strip_prefix('+') {
        add_line(&mut step.replacement, rest)?;
    } else if line.starts_with('\\') {
        let _ = step.block.pop();
    } else {
        return Ok(false);
    }
    Ok(true)
}

/// Returns the steps of a text. Empty lines and those that begin with `#` say nothing.
pub fn steps_of(alloc: Global, text: &str) -> Result<Vec<Step<'_>>, AllocError> {
    let mut steps = Vec::new(alloc);
    for (index, line) in text.lines().enumerate() {
        if line.is_empty() || line.starts_with('#') || add_to_block(&mut steps, line)? {
            continue;
        }
        steps.push(Step::new(alloc, index.saturating_add(1), line))?;
    }
    Ok(steps)
}

/// Returns a text with a carriage return before each line feed.
pub fn with_returns(alloc: Global, text: &str) -> Result<String, AllocError> {
    let mut all = String::new(alloc);
    for letter in text.chars() {
        if letter == '\n' {
            all.push('\r')?;
        }
        all.push(letter)?;
    }
    Ok(all)
}

/// Returns the words of a line: those between spaces, and whole what stands between single quotes.
pub fn words_of(alloc: Global, line: &str) -> Result<Vec<&str>, AllocError> {
    let mut words = Vec::new(alloc);
    for (index, piece) in line.split('\'').enumerate() {
        if index % 2 == 1 {
            words.push(piece)?;
            continue;
        }
        for word in piece.split_whitespace() {
            words.push(word)?;
        }
    }
    Ok(words)
}
