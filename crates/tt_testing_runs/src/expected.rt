//! What is expected of a text.

use crate::script::{Step, with_returns};
use std::alloc::{AllocError, Global};
use std::test::Fail;
use tt_testing_samples::sample;

/// What is expected of a text.
#[derive(Debug, Drop)]
pub enum Expected {
    Any,
    /// A text with a character.
    Filled,
    Is(String),
    /// A text with these words somewhere.
    Has(String),
    Lacks(String),
    Begins(String),
    /// A text that ends so, and with a line feed after it.
    Ends(String),
    /// A text of so many lines.
    Lines(usize),
}

/// Returns the words after a form of expectation, or the block of its step without the last line feed.
fn part(alloc: Global, words: &str, step: &Step<'_>) -> Result<String, AllocError> {
    if words.is_empty() {
        String::from_str(alloc, step.block.strip_suffix('\n').unwrap_or(&step.block))
    } else {
        String::from_str(alloc, words)
    }
}

impl Expected {
    /// Returns what some words of a step expect.
    pub fn of(alloc: Global, words: &str, step: &Step<'_>) -> Result<Expected, Fail> {
        let (form, rest) = words.split_once(' ').unwrap_or((words, ""));
        let expected = match form {
            "" => Expected::Is(String::from_str(alloc, &step.block)?),
            "crlf" => Expected::Is(with_returns(alloc, &step.block)?),
            "nothing" => Expected::Is(String::new(alloc)),
            "any" => Expected::Any,
            "some" => Expected::Filled,
            "is" => Expected::Is(String::from_str(alloc, sample(rest)?)?),
            "has" => Expected::Has(part(alloc, rest, step)?),
            "lacks" => Expected::Lacks(part(alloc, rest, step)?),
            "begins" => Expected::Begins(part(alloc, rest, step)?),
            "ends" => Expected::Ends(part(alloc, rest, step)?),
            "lines" => Expected::Lines(rest.parse()?),
            _ => return Err(Fail::new(format_args!("{form} is nothing to expect"))),
        };
        Ok(expected)
    }

    /// Checks whether a text is as expected.
    pub fn fits(&self, text: &str) -> bool {
        match self {
            Expected::Any => true,
            Expected::Filled => !text.is_empty(),
            Expected::Is(whole) => text == whole.as_str(),
            Expected::Has(part) => text.contains(part.as_str()),
            Expected::Lacks(part) => !text.contains(part.as_str()),
            Expected::Begins(start) => text.starts_with(start.as_str()),
            Expected::Ends(end) => text
                .strip_suffix('\n')
                .is_some_and(|text| text.ends_with(end.as_str())),
            Expected::Lines(count) => text.lines().count() == *count,
        }
    }

    /// Returns the part of a text that shows what isn't as expected: all from where it differs, if a whole text was expected.
    pub fn difference<'t>(&self, text: &'t str) -> &'t str {
        let Expected::Is(whole) = self else {
            return text;
        };
        let common = text
            .as_bytes()
            .iter()
            .zip(whole.as_bytes())
            .take_while(|(one, other)| one == other)
            .count();
        text.get(common..).unwrap_or(text)
    }
}
