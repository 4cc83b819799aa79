//! A line that shows the progress of a command.

use crate::numbers::Grouped;
use std::fmt;
use std::io::Write;
use std::rt::Clock;
use std::time::Duration;
use tt_watch::{Pair, Progress, Unit};

/// The number of milliseconds between two updates of the line.
const MILLISECONDS_BETWEEN: u128 = 250;

/// Moves to the first column, so that the line is overwritten, and has the terminal cut what is too long.
const LINE_START: &str = "\r\x1b[?7l";

/// Clears the rest of the line, and lets the terminal wrap lines again.
const LINE_END: &str = "\x1b[K\x1b[?7h";

/// Clears the line.
const NO_LINE: &str = "\r\x1b[K";

/// A line on standard error that is overwritten, at most four times a second.
pub struct Ticker<'r, R: Clock, E: Write> {
    rt: &'r R,
    err: &'r mut E,
    command: &'r str,
    is_on: bool,
    start: Duration,
    last: Duration,
    is_shown: bool,
    rounds: Option<Rounds>,
}

/// What a search in rounds has reached.
#[derive(Clone, Copy, Debug)]
struct Rounds {
    /// The number of the round, from 1 on, and the most rounds.
    number: u64,
    most: u64,
    best: Option<Pair>,
    bound: Option<u64>,
}

impl Rounds {
    /// Takes what is better in the progress of a search.
    fn take(&mut self, progress: Progress) {
        if let Some(pair) = progress.best
            && self.best.is_none_or(|best| pair.is_below(best))
        {
            self.best = Some(pair);
        }
        if let Some(bound) = progress.bound
            && self.bound.is_none_or(|known| known < bound)
        {
            self.bound = Some(bound);
        }
    }

    /// Returns the bound, which is no greater than the cost of a timetable that breaks no hard rule.
    fn bound(&self) -> Option<u64> {
        match (self.bound, self.best) {
            (Some(bound), Some(best)) if best.hard == 0 => Some(bound.min(best.cost)),
            (bound, _) => bound,
        }
    }
}

impl fmt::Display for Rounds {
    fn fmt<W: fmt::Write>(&self, f: &mut fmt::Formatter<W>) -> fmt::Result {
        let (number, most) = (Grouped(self.number), Grouped(self.most));
        write!(f, "round {number} of {most}")?;
        if let Some(best) = self.best {
            write_best(f, best.hard, best.cost)?;
        }
        if let Some(bound) = self.bound() {
            write!(f, ", bound {bound}")?;
        }
        Ok(())
    }
}

impl<'r, R: Clock, E: Write> Drop for Ticker<'r, R, E> {
    fn drop(self) {
        let Ticker {
            rt: _,
            err: _,
            command: _,
            is_on: _,
            start: _,
            last: _,
            is_shown: _,
            rounds: _,
        } = self;
    }
}

/// The progress of a search, in words.
#[derive(Clone, Copy, Debug)]
struct Words(Progress);

impl fmt::Display for Words {
    fn fmt<W: fmt::Write>(&self, f: &mut fmt::Formatter<W>) -> fmt::Result {
        let progress = self.0;
        let (done, limit) = (Grouped(progress.done), Grouped(progress.limit));
        let unit = match progress.unit {
            Unit::Steps => "steps",
            Unit::Nodes => "nodes",
        };
        write!(f, "{done} of {limit} {unit}")?;
        if let Some(bound) = progress.bound {
            write!(f, ", bound {bound}")?;
        }
        if let Some(best) = progress.best {
            write_best(f, best.hard, best.cost)?;
        }
        if let Some(tried) = progress.tried {
            write!(f, ", trying {tried} curricula")?;
        }
        Ok(())
    }
}

/// How much of a proof has been read.
#[derive(Clone, Copy, Debug)]
struct Read {
    number: Option<u64>,
    bytes: u64,
    size: Option<u64>,
}

impl fmt::Display for Read {
    fn fmt<W: fmt::Write>(&self, f: &mut fmt::Formatter<W>) -> fmt::Result {
        if let Some(number) = self.number {
            write!(f, "proof {number}: ")?;
        }
        let bytes = Grouped(self.bytes);
        match self.size {
            Some(size) => {
                let size = Grouped(size);
                write!(f, "{bytes} of {size} bytes")
            }
            None => write!(f, "{bytes} bytes"),
        }
    }
}

/// Writes the violations and the cost of the best timetable.
fn write_best<W: fmt::Write>(f: &mut fmt::Formatter<W>, hard: u64, cost: u64) -> fmt::Result {
    if hard > 0 {
        return write!(f, ", hard {hard} cost {cost}");
    }
    write!(f, ", cost {cost}")
}

impl<'r, R: Clock, E: Write> Ticker<'r, R, E> {
    /// Returns a line for a command that begins now, which is shown if it is on and there is a clock.
    pub fn new(rt: &'r R, err: &'r mut E, command: &'r str, is_on: bool) -> Ticker<'r, R, E> {
        let begun = rt.monotonic();
        let (start, is_on) = match begun {
            Ok(start) => (start, is_on),
            Err(_) => (Duration::ZERO, false),
        };
        Ticker {
            rt,
            err,
            command,
            is_on,
            start,
            last: start,
            is_shown: false,
            rounds: None,
        }
    }

    /// Shows rounds from now on, and what they have reached.
    pub fn show_round(&mut self, number: u64, most: u64) {
        let (best, bound) = match self.rounds {
            Some(rounds) => (rounds.best, rounds.bound),
            None => (None, None),
        };
        self.rounds = Some(Rounds {
            number,
            most,
            best,
            bound,
        });
    }

    /// Returns the seconds since the beginning, if the line is due.
    fn due(&mut self) -> Option<u64> {
        if !self.is_on {
            return None;
        }
        let now = self.rt.monotonic().ok()?;
        let since = now.checked_sub(self.last)?;
        if since.as_millis() < MILLISECONDS_BETWEEN {
            return None;
        }
        self.last = now;
        Some(now.checked_sub(self.start)?.as_secs())
    }

    /// Shows the progress of a search.
    pub fn show(&mut self, progress: Progress) {
        if let Some(rounds) = &mut self.rounds {
            rounds.take(progress);
        }
        let Some(seconds) = self.due() else {
            return;
        };
        let (command, words) = (self.command, Words(progress));
        self.is_shown = true;
        let _ = match self.rounds {
            Some(rounds) => write!(
                self.err,
                "{LINE_START}{command}: {rounds}, {seconds} s{LINE_END}"
            ),
            None => write!(
                self.err,
                "{LINE_START}{command}: {words}, {seconds} s{LINE_END}"
            ),
        };
    }

    /// Shows how many bytes of a proof have been read, and its size, if it is known; a number identifies the proof.
    pub fn show_bytes(&mut self, number: Option<u64>, bytes: u64, size: Option<u64>) {
        let Some(seconds) = self.due() else {
            return;
        };
        let (command, read) = (
            self.command,
            Read {
                number,
                bytes,
                size,
            },
        );
        self.is_shown = true;
        let _ = write!(
            self.err,
            "{LINE_START}{command}: {read}, {seconds} s{LINE_END}"
        );
    }

    /// Shows how many bytes of a page have been written.
    pub fn show_written(&mut self, bytes: u64) {
        let Some(seconds) = self.due() else {
            return;
        };
        let (command, bytes) = (self.command, Grouped(bytes));
        self.is_shown = true;
        let _ = write!(
            self.err,
            "{LINE_START}{command}: {bytes} bytes written, {seconds} s{LINE_END}"
        );
    }

    /// Clears the line.
    pub fn clear(&mut self) {
        if self.is_shown {
            let _ = write!(self.err, "{NO_LINE}");
        }
    }
}
