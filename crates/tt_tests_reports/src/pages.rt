//! The names of a page, and pages over writers that stop.

use crate::writers::StoppingOnce;
use std::alloc::Global;
use std::test::Fail;
use tt_app::{AppFault, PageForm, UNNAMED, page};
use tt_page::{MAX_PAGE_BYTES, PageText, put_shown};
use tt_testing_samples::{MINI, MINI_SOLUTION};
use tt_text::{Sink, Writing};

/// The whole page, without names.
const WHOLE: PageForm<'static> = PageForm {
    names: UNNAMED,
    sheet: None,
};

/// Returns the text that is shown for a name.
fn shown(alloc: Global, name: &[u8]) -> Result<String, Fail> {
    let mut out = PageText::new(alloc, 1000)?;
    put_shown(&mut out, name);
    Ok(String::from_utf8(out.into_bytes())?)
}

#[test]
fn names_stay_in_their_cells(rt: HostRuntime) -> Result<(), Fail> {
    for (name, text) in [
        (b"</td><b>".as_slice(), "&lt;/td&gt;&lt;b&gt;"),
        (
            b"\"x\"='&amp;'".as_slice(),
            "&quot;x&quot;=&#39;&amp;amp;&#39;",
        ),
        (b"\x01\x7F\xC2\x85".as_slice(), "\u{FFFD}\u{FFFD}\u{FFFD}"),
        (b"\xFF<\xC3".as_slice(), "\u{FFFD}&lt;\u{FFFD}"),
        ("Gödel".as_bytes(), "Gödel"),
    ] {
        assert_eq!(rt; shown(rt.alloc(), name)?.as_str(), text);
    }
    Ok(())
}

#[test]
fn writes_that_stop(rt: HostRuntime) -> Result<(), Fail> {
    let mut whole = Vec::new(rt.alloc());
    let answer = page(
        rt.alloc(),
        MINI.as_bytes(),
        MINI_SOLUTION.as_bytes(),
        WHOLE,
        tt_page::STYLE,
        &mut Writing::new(&mut whole),
    );
    assert_eq!(rt; answer, Ok(0));
    for stops_at in [0usize, 1, 999, 8999] {
        let mut writer = StoppingOnce::new(rt.alloc(), 1, stops_at, None);
        let mut sink = Writing::new(&mut writer);
        let answer = page(
            rt.alloc(),
            MINI.as_bytes(),
            MINI_SOLUTION.as_bytes(),
            WHOLE,
            tt_page::STYLE,
            &mut sink,
        );
        assert_eq!(rt; answer, Err(AppFault::CannotWrite));
        assert!(rt; sink.failed());
        assert!(rt; whole.as_slice().starts_with(writer.bytes()));
        assert_eq!(rt; writer.bytes().len(), stops_at);
    }
    Ok(())
}

/// Writes the page of Mini with a style of this many letters, and returns the answer and how many bytes were written.
fn styled(alloc: Global, letters: usize) -> Result<(Result<u8, AppFault>, usize), Fail> {
    let style = String::from_utf8(Vec::from_elem(alloc, b'x', letters)?)?;
    let mut text = Vec::new(alloc);
    let answer = page(
        alloc,
        MINI.as_bytes(),
        MINI_SOLUTION.as_bytes(),
        WHOLE,
        style.as_str(),
        &mut Writing::new(&mut text),
    );
    Ok((answer, text.len()))
}

#[test]
fn the_largest_page(rt: HostRuntime) -> Result<(), Fail> {
    let (answer, unstyled) = styled(rt.alloc(), 0)?;
    assert_eq!(rt; answer, Ok(0));
    let room = MAX_PAGE_BYTES.saturating_sub(unstyled);
    let (answer, written) = styled(rt.alloc(), room)?;
    assert_eq!(rt; answer, Ok(0));
    assert_eq!(rt; written, MAX_PAGE_BYTES);
    let (answer, written) = styled(rt.alloc(), room.saturating_add(1))?;
    assert_eq!(rt; answer, Err(AppFault::PageTooLarge));
    assert_eq!(rt; written, 0);
    Ok(())
}
