//! Texts on their way to their outputs.

use crate::draft::{Draft, Older, sync_folder};
use crate::fault::OutputFault;
use crate::output::Ready;
use crate::rescue::{Label, Whereabouts};
use crate::standard::StandardStream;
use std::alloc::AllocError;
use std::io::Write;
use std::rt::{Clock, Files};
use std::{fs, mem};

/// How far a text is on its way to its output.
#[derive(Debug, Drop)]
pub enum Content {
    /// It is whole, next to its place.
    Drafted(Draft),
    /// It is at its place.
    Moved(Draft, Older),
    /// A device or a pipe has it.
    Streamed,
    /// It is for a standard stream.
    Standard(StandardStream, Vec<u8>),
    /// It couldn't be written.
    Failed(OutputFault, Vec<u8>),
}

/// A text with its output.
#[derive(Debug, Drop)]
pub struct Part {
    pub label: Label,
    pub content: Content,
}

/// Writes a text to an output, as far as it can be without changing a file that is there.
pub fn written<R: Files + Clock + AllocGlobal>(
    rt: &R,
    ready: &mut Ready<R::File>,
    bytes: &[u8],
) -> Result<Content, AllocError> {
    let tried = match ready {
        Ready::Place(place) => Draft::write(rt, place, bytes).map(Content::Drafted),
        Ready::Stream(file) => match file.write_all(bytes).and_then(|()| file.flush()) {
            Ok(()) => Ok(Content::Streamed),
            Err(fault) => Err(OutputFault::from(fault)),
        },
        Ready::Standard(stream) => {
            let text = Vec::from_slice(rt.alloc(), bytes)?;
            Ok(Content::Standard(*stream, text))
        }
    };
    match tried {
        Ok(content) => Ok(content),
        Err(OutputFault::OutOfMemory) => Err(AllocError),
        Err(fault) => Ok(Content::Failed(fault, Vec::from_slice(rt.alloc(), bytes)?)),
    }
}

/// Removes the new file of a text; an older file at its place is restored.
pub fn undo<R: Files>(rt: &R, part: &Part) {
    match &part.content {
        Content::Drafted(draft) => draft.remove(rt),
        Content::Moved(draft, older) => {
            if draft.take_back(rt, older) {
                draft.remove(rt);
            }
        }
        Content::Streamed | Content::Standard(..) | Content::Failed(..) => {}
    }
}

/// Removes the new files of texts; older files at their places are restored.
pub fn undo_all<R: Files>(rt: &R, parts: &[Part]) {
    for part in parts {
        undo(rt, part);
    }
}

/// Removes the second names of older files, which can't be restored any more.
pub fn forget_older<R: Files>(rt: &R, parts: &mut [Part]) {
    for part in parts {
        if let Content::Moved(_, older) = &mut part.content {
            if let Older::Linked(path) = older {
                let _ = fs::remove_file(rt, path.as_str());
            }
            *older = Older::Unlinked;
        }
    }
}

/// Makes the system store the name of a new file in its folder.
pub fn sync_part<R: Files>(rt: &R, part: &Part) -> Result<(), OutputFault> {
    match &part.content {
        Content::Moved(draft, _) => sync_folder(rt, draft.place().folder()),
        _ => Ok(()),
    }
}

/// Renames the new file of a text to its place, and returns why it couldn't be.
pub fn move_part<R: Files + Clock + AllocGlobal>(
    rt: &R,
    part: &mut Part,
    is_alone: bool,
) -> Result<Option<OutputFault>, AllocError> {
    let content = mem::replace(&mut part.content, Content::Streamed);
    let Content::Drafted(draft) = content else {
        part.content = content;
        return Ok(None);
    };
    let older = if is_alone {
        Older::Unlinked
    } else {
        match draft.link_older(rt) {
            Ok(older) => older,
            Err(fault) => {
                part.content = Content::Drafted(draft);
                return Err(fault);
            }
        }
    };
    match draft.rename(rt) {
        Ok(()) => {
            part.content = Content::Moved(draft, older);
            Ok(None)
        }
        Err(fault) => {
            if let Older::Linked(older) = &older {
                let _ = fs::remove_file(rt, older.as_str());
            }
            part.content = Content::Drafted(draft);
            Ok(Some(fault))
        }
    }
}

/// Returns where a text is once older files have been restored; `None` if a device or a pipe has it.
pub fn whereabouts_of<R: Files>(rt: &R, content: Content, is_free: bool) -> Option<Whereabouts> {
    match content {
        Content::Drafted(draft) => Some(Whereabouts::File(draft.into_path())),
        Content::Moved(draft, older) => {
            if draft.take_back(rt, &older) {
                Some(Whereabouts::File(draft.into_path()))
            } else {
                Some(Whereabouts::Place)
            }
        }
        Content::Streamed => None,
        Content::Standard(_, text) => Some(Whereabouts::Text(text)),
        Content::Failed(_, text) if is_free => Some(Whereabouts::Text(text)),
        Content::Failed(..) => Some(Whereabouts::Lost),
    }
}
