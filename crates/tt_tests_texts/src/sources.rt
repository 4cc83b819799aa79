//! Readers, feeds and readers of proofs, tested by the library's calls.

use std::alloc::Global;
use std::io;
use std::io::{Error, ErrorKind, Read};
use std::test::Fail;
use tt_instance::Instance;
use tt_instance_read::read_instance;
use tt_leaf::Bound;
use tt_proof_read::{NodeReader, TextFault};
use tt_testing_samples::{MINI, WIDE};
use tt_text::{Feed, FeedFault, Pieces, ReadFailed, Reading, Source, WholeFault, read_whole};

/// A reader whose first read is interrupted.
#[derive(Drop)]
struct Interrupted<'a> {
    rest: &'a [u8],
    begun: bool,
}

impl<'a> Interrupted<'a> {
    fn new(rest: &'a [u8]) -> Self {
        Interrupted { rest, begun: false }
    }
}

impl<'a> Read for Interrupted<'a> {
    fn read(&mut self, buffer: &mut [u8]) -> io::Result<usize> {
        if !self.begun {
            self.begun = true;
            return Err(Error::from(ErrorKind::Interrupted));
        }
        let count = buffer.len().min(self.rest.len());
        let (piece, rest) = self.rest.split_at(count);
        buffer[..count].copy_from_slice(piece);
        self.rest = rest;
        Ok(count)
    }
}

#[test]
fn an_interrupted_read_has_failed(rt: HostRuntime) {
    let mut source = Reading::new(Interrupted::new(b"abc"));
    let mut buffer = [0u8; 4];
    assert!(rt; !source.failed());
    assert_eq!(rt; source.read(&mut buffer), Err(ReadFailed));
    assert!(rt; source.failed());
    assert_eq!(rt; source.read(&mut buffer), Ok(3));
    assert_eq!(rt; buffer, *b"abc\0");
    assert!(rt; source.failed());
}

#[test]
fn an_interrupted_read_is_reported(rt: HostRuntime) -> Result<(), Fail> {
    let mut source = Reading::new(Interrupted::new(MINI.as_bytes()));
    let whole = read_whole(rt.alloc(), &mut source, 188);
    assert_eq!(rt; whole.err(), Some(WholeFault::Read));
    let instance = read_instance(rt.alloc(), MINI.as_bytes())?;
    let mut source = Reading::new(Interrupted::new(b"CTTP 1 bound 0 B ; end"));
    let reader = NodeReader::new(rt.alloc(), &instance, &mut source);
    assert_eq!(rt; reader.err(), Some(TextFault::Feed(FeedFault::Read)));
    Ok(())
}

/// A reader that never ends.
#[derive(Drop)]
struct Spaces;

impl Read for Spaces {
    fn read(&mut self, buffer: &mut [u8]) -> io::Result<usize> {
        buffer.fill(b' ');
        Ok(buffer.len())
    }
}

#[test]
fn a_source_without_end(rt: HostRuntime) {
    let whole = read_whole(rt.alloc(), &mut Reading::new(Spaces), 188);
    assert_eq!(rt; whole.err(), Some(WholeFault::TooLong));
}

/// The answers of a feed: the offset of its next token or the reason why it has none, the first byte of that token, and where the text ended.
#[derive(Clone, Copy, Debug, PartialEq, Eq)]
struct Said {
    next: Result<Option<usize>, FeedFault>,
    first: Option<u8>,
    ended: Option<usize>,
}

/// Returns the feed's answers about a token.
fn token_said(at: usize, first: u8) -> Said {
    Said {
        next: Ok(Some(at)),
        first: Some(first),
        ended: None,
    }
}

/// Returns the feed's answers after an error.
fn fault_said(fault: FeedFault) -> Said {
    Said {
        next: Err(fault),
        first: None,
        ended: None,
    }
}

fn say(feed: &mut Feed, source: &mut Pieces<'_>) -> Said {
    Said {
        next: feed.next(source),
        first: feed.token().first().copied(),
        ended: feed.ended(),
    }
}

/// Returns a feed's answers to the first four calls.
fn said_by_feed(alloc: Global, text: &[u8], fail_at: u64) -> Result<[Said; 4], FeedFault> {
    let mut source = Pieces::new(text, 4, fail_at);
    let mut feed = Feed::new(alloc)?;
    Ok([
        say(&mut feed, &mut source),
        say(&mut feed, &mut source),
        say(&mut feed, &mut source),
        say(&mut feed, &mut source),
    ])
}

#[test]
fn a_feed_after_its_fault(rt: HostRuntime) -> Result<(), Fail> {
    for (text, fail_at, fault) in [
        (b"a b c".as_slice(), 2, FeedFault::Read),
        (
            b"a b 012345678901234567890123456789012 c",
            0,
            FeedFault::TokenTooLong(4),
        ),
    ] {
        let said = [
            token_said(0, b'a'),
            token_said(2, b'b'),
            fault_said(fault),
            fault_said(fault),
        ];
        assert_eq!(rt; said_by_feed(rt.alloc(), text, fail_at)?, said);
    }
    Ok(())
}

/// Checks whether a reader gives a node.
fn gives_node(reader: &mut NodeReader, source: &mut Pieces<'_>) -> Result<bool, TextFault> {
    Ok(reader.next_node(source)?.is_some())
}

/// Returns a reader's two results for a node whose text is cut off by a read that fails once.
fn said_of_node(
    alloc: Global,
    instance: &Instance<'_>,
) -> Result<[Result<bool, TextFault>; 2], TextFault> {
    let mut source = Pieces::new(b"CTTP 1 bound 0 B ; end", 16, 2);
    let mut reader = NodeReader::new(alloc, instance, &mut source)?;
    Ok([
        gives_node(&mut reader, &mut source),
        gives_node(&mut reader, &mut source),
    ])
}

#[test]
fn a_proof_reader_after_a_failed_read(rt: HostRuntime) -> Result<(), Fail> {
    let instance = read_instance(rt.alloc(), MINI.as_bytes())?;
    let failed = Err(TextFault::Feed(FeedFault::Read));
    assert_eq!(rt; said_of_node(rt.alloc(), &instance), Ok([failed, failed]));
    Ok(())
}

/// The answers of a reader of a proof of one leaf at its end.
#[derive(Clone, Copy, Debug, PartialEq, Eq)]
struct Ending {
    finished: Result<(), TextFault>,
    /// Whether it is still whole afterwards.
    whole: bool,
    version: u8,
    bound: Bound,
}

/// Reads one node; returns `None` if there is none, or if more are to come.
fn end(reader: &mut NodeReader, source: &mut Pieces<'_>) -> Result<Option<Ending>, TextFault> {
    let is_there = reader.next_node(source)?.is_some();
    if !is_there || !reader.whole() {
        return Ok(None);
    }
    Ok(Some(Ending {
        finished: reader.finish(source),
        whole: reader.whole(),
        version: reader.version(),
        bound: reader.bound(),
    }))
}

/// Reads the one node of a text; returns `None` if there is none, or if more are to come.
fn end_of(
    alloc: Global,
    instance: &Instance<'_>,
    text: &[u8],
) -> Result<Option<Ending>, TextFault> {
    let mut source = Pieces::new(text, 4, 0);
    let mut reader = NodeReader::new(alloc, instance, &mut source)?;
    end(&mut reader, &mut source)
}

#[test]
fn a_proof_reader_after_its_end(rt: HostRuntime) -> Result<(), Fail> {
    let instance = read_instance(rt.alloc(), WIDE.as_bytes())?;
    for (text, finished) in [
        (b"CTTP 2 bound 5 B T c0 ; end".as_slice(), Ok(())),
        (
            b"CTTP 2 bound 5 B T c0 ; end x",
            Err(TextFault::TrailingToken(28)),
        ),
        (b"CTTP 2 bound 5 B T c0 ;", Err(TextFault::Ended(23))),
    ] {
        let ending = Ending {
            finished,
            whole: true,
            version: 2,
            bound: Bound::AtLeast(5),
        };
        assert_eq!(rt; end_of(rt.alloc(), &instance, text), Ok(Some(ending)));
    }
    Ok(())
}
