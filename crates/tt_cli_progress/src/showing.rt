//! Shows the progress of a command.

use crate::counted::Counted;
use crate::opened::{Opened, open_input};
use crate::terminal::is_terminal;
use crate::ticker::Ticker;
use crate::world::World;
use std::cell::RefCell;
use std::io;
use std::io::Write;
use std::rt::{Clock, Files};
use tt_cli_arguments::Showing;

/// The line that shows how much of proofs has been read.
pub type Shown<'s, R, E> = RefCell<Ticker<'s, R, E>>;

/// A proof that is open, or standard input, which shows how much of it has been read.
pub type OpenProof<'c, 't, R, E> = Counted<
    'c,
    't,
    Opened<<R as Files>::File, <R as Input>::Reader>,
    R,
    E,
>;

/// Returns the line that shows the progress of a command, switched on if it is to be shown.
pub fn ticker_of<'s, R: Files + Clock + AllocGlobal, E: Write>(
    rt: &'s R,
    err: &'s mut E,
    command: &'s str,
    showing: Showing,
) -> Ticker<'s, R, E> {
    let is_on = match showing {
        Showing::Always => true,
        Showing::IfTerminal => is_terminal(rt),
        Showing::Never => false,
    };
    Ticker::new(rt, err, command, is_on)
}

/// Opens a proof and shows the progress of its reading.
pub fn open_counted<'c, 't, R: World, E: Write>(
    rt: &R,
    path: &str,
    number: Option<u64>,
    shown: &'c Shown<'t, R, E>,
) -> io::Result<OpenProof<'c, 't, R, E>> {
    let file = open_input(rt, path)?;
    let size = file.size();
    Ok(Counted::new(file, number, size, shown))
}

/// Clears the line.
pub fn clear<R: Clock, E: Write>(shown: &Shown<'_, R, E>) {
    if let Ok(mut ticker) = shown.try_borrow_mut() {
        ticker.clear();
    }
}
