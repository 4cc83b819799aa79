//! Bytes of a file in the form in which they are shown: printable, and not too many.

use bstr::ByteSlice;
use std::fmt;

/// The maximum number of letters of a line that are shown, and of a name.
const MAX_LINE: usize = 120;

const MAX_NAME: usize = 60;

/// Checks whether a letter may be on a terminal: it neither controls it nor turns the direction of a text, and it isn't invisible.
fn is_harmless(letter: char) -> bool {
    match letter {
        '\u{61C}'
        | '\u{200B}'..='\u{200F}'
        | '\u{2028}'..='\u{202E}'
        | '\u{2060}'..='\u{206F}'
        | '\u{FEFF}' => false,
        _ => !letter.is_control(),
    }
}

/// Returns what is shown of a letter: `?` if it may not be on a terminal.
fn harmless(letter: char) -> char {
    if is_harmless(letter) { letter } else { '?' }
}

/// A line of a file without its first letters, read as UTF-8, and cut if it is long. A letter that may not be on a terminal is shown as `?`, so
/// that each has a column.
#[derive(Clone, Copy)]
pub struct Shown<'a> {
    pub bytes: &'a [u8],
    pub skipped: usize,
}

impl<'a> fmt::Display for Shown<'a> {
    fn fmt<W: fmt::Write>(&self, f: &mut fmt::Formatter<W>) -> fmt::Result {
        let end = self.skipped.saturating_add(MAX_LINE);
        for (index, letter) in self.bytes.chars().enumerate() {
            if index >= end {
                return Ok(());
            }
            if index >= self.skipped {
                f.write_char(harmless(letter))?;
            }
        }
        Ok(())
    }
}

/// A name of a file, read as UTF-8, and cut if it is long. A letter that may not be on a terminal is shown as `?`.
#[derive(Clone, Copy)]
pub struct Name<'a> {
    pub bytes: &'a [u8],
}

impl<'a> fmt::Display for Name<'a> {
    fn fmt<W: fmt::Write>(&self, f: &mut fmt::Formatter<W>) -> fmt::Result {
        for (index, letter) in self.bytes.chars().enumerate() {
            if index == MAX_NAME {
                return f.write_str("..");
            }
            f.write_char(harmless(letter))?;
        }
        Ok(())
    }
}

/// A thing that is counted, with its verb where a text needs one.
#[derive(Clone, Copy)]
pub enum Noun {
    CaseThatWas,
    Course,
    CourseThatIs,
    Curriculum,
    CurriculumThatHas,
    Day,
    Lecture,
    LectureThatHas,
    LineThatFollows,
    Pair,
    Period,
    Place,
    Room,
    RoomThatHas,
    RoomThatIs,
    Seat,
    Student,
    Teacher,
    Time,
    Word,
}

/// The words for one thing and those for several, in the order of the nouns.
const WORDS: [(&str, &str); 20] = [
    ("case was", "cases were"),
    ("course", "courses"),
    ("course is", "courses are"),
    ("curriculum", "curricula"),
    ("curriculum has", "curricula have"),
    ("day", "days"),
    ("lecture", "lectures"),
    ("lecture has", "lectures have"),
    ("line follows", "lines follow"),
    ("pair", "pairs"),
    ("period", "periods"),
    ("place", "places"),
    ("room", "rooms"),
    ("room has", "rooms have"),
    ("room is", "rooms are"),
    ("seat", "seats"),
    ("student", "students"),
    ("teacher", "teachers"),
    ("time", "times"),
    ("word", "words"),
];

impl Noun {
    /// Returns the words for one thing, and those for several.
    fn words(self) -> (&'static str, &'static str) {
        match WORDS.get(self as usize) {
            Some(words) => *words,
            None => ("", ""),
        }
    }
}

impl fmt::Display for Noun {
    fn fmt<W: fmt::Write>(&self, f: &mut fmt::Formatter<W>) -> fmt::Result {
        f.write_str(self.words().0)
    }
}

/// A number of things, in words.
#[derive(Clone, Copy)]
pub struct Counted(pub u64, pub Noun);

impl fmt::Display for Counted {
    fn fmt<W: fmt::Write>(&self, f: &mut fmt::Formatter<W>) -> fmt::Result {
        let count = self.0;
        let (one, many) = self.1.words();
        let word = if count == 1 { one } else { many };
        write!(f, "{count} {word}")
    }
}
