//! Texts that are longer than the buffer through which they are written.

use crate::reports::reported_to;
use crate::writers::StoppingOnce;
use std::alloc::{AllocError, Global};
use std::test::Fail;
use tt_app::AppFault;
use tt_report::Output;
use tt_text::{
    Sink, Writing, put_line_end, put_next_number, put_next_token, put_number, put_token,
};

/// How many bytes a writer takes at most in one write.
const MOST_IN_A_WRITE: usize = 5_000;

/// The number of a write that is never made.
const NEVER: usize = usize::MAX;

// ---- texts

/// How many numbers a sample has.
const NUMBERS: u64 = 3_000;

/// A name that is longer than the buffer.
const LONG_NAME: [u8; 20_000] = [97; 20_000];

/// Puts a sample.
fn put_sample<W: Sink>(out: &mut Output<'_, W>) {
    out.put(b"a");
    for number in 0..NUMBERS {
        out.put_next_number(number);
    }
    out.put_next_token(&LONG_NAME);
    out.put_line_end();
    out.put_number(7);
}

/// Returns the text of a sample.
fn sample(alloc: Global) -> Result<Vec<u8>, AllocError> {
    let mut text = Vec::new(alloc);
    put_token(&mut text, b"a")?;
    for number in 0..NUMBERS {
        put_next_number(&mut text, number)?;
    }
    put_next_token(&mut text, &LONG_NAME)?;
    put_line_end(&mut text)?;
    put_number(&mut text, 7)?;
    Ok(text)
}

/// Writes a sample, and returns whether all was written and whether the sink had failed then.
fn write_sample(writer: &mut StoppingOnce) -> (bool, bool) {
    let mut sink = Writing::new(writer);
    let mut out = Output::new(&mut sink);
    put_sample(&mut out);
    let written = out.flush().is_ok();
    (written, sink.failed())
}

#[test]
fn a_text_longer_than_the_buffer(rt: HostRuntime) -> Result<(), Fail> {
    let text = sample(rt.alloc())?;
    let mut writer = StoppingOnce::failing(rt.alloc(), MOST_IN_A_WRITE, NEVER);
    assert_eq!(rt; write_sample(&mut writer), (true, false));
    assert!(rt; writer.bytes() == text.as_slice());
    Ok(())
}

#[test]
fn each_write_of_a_text_fails(rt: HostRuntime) -> Result<(), Fail> {
    let text = sample(rt.alloc())?;
    let mut writer = StoppingOnce::failing(rt.alloc(), MOST_IN_A_WRITE, NEVER);
    write_sample(&mut writer);
    for stops_at in 0..writer.writes() {
        let mut writer = StoppingOnce::failing(rt.alloc(), MOST_IN_A_WRITE, stops_at);
        assert_eq!(rt; write_sample(&mut writer), (false, true), "at {stops_at}");
        assert!(rt; text.starts_with(writer.bytes()), "at {stops_at}");
        assert_eq!(rt; writer.writes(), stops_at + 1);
    }
    Ok(())
}

// ---- reports

/// Four rooms and 64 days of eight periods.
const DAYS: &str =
    "Name: Days\nCourses: 1\nRooms: 4\nDays: 64\nPeriods_per_day: 8\nCurricula: 0\nConstraints: 0\n\nCOURSES:\na t1 1 1 10\n\nROOMS:\nA 11\nB 11\nC 11\nD 11\n\nCURRICULA:\n\nUNAVAILABILITY_CONSTRAINTS:\n\nEND.\n";

/// The course in the last room and the last period.
const LAST: &str = "a D 63 7\n";

/// Returns the text of the report by rooms.
fn by_room(alloc: Global) -> Result<String, AllocError> {
    let mut text = String::new(alloc);
    for room in ["A", "B", "C", "D"] {
        text.push_str(&format!(in alloc; "room {room}\n")?)?;
        for slot in 0u32..512 {
            let shown = if room == "D" && slot == 511 { " a" } else { "" };
            text.push_str(&format!(in alloc; "{} {}{shown}\n", slot / 8, slot % 8)?)?;
        }
    }
    Ok(text)
}

#[test]
fn a_report_longer_than_the_buffer(rt: HostRuntime) -> Result<(), Fail> {
    let text = by_room(rt.alloc())?;
    let mut writer = StoppingOnce::failing(rt.alloc(), usize::MAX, NEVER);
    let answer = reported_to(rt.alloc(), DAYS, LAST, &mut writer);
    assert_eq!(rt; answer, (Ok(0), false));
    assert!(rt; writer.bytes() == text.as_bytes());
    assert!(rt; writer.writes() > 1);
    Ok(())
}

#[test]
fn each_write_of_a_report_fails(rt: HostRuntime) -> Result<(), Fail> {
    let text = by_room(rt.alloc())?;
    let mut writer = StoppingOnce::failing(rt.alloc(), usize::MAX, NEVER);
    let _ = reported_to(rt.alloc(), DAYS, LAST, &mut writer);
    for stops_at in 0..writer.writes() {
        let mut writer = StoppingOnce::failing(rt.alloc(), usize::MAX, stops_at);
        let answer = reported_to(rt.alloc(), DAYS, LAST, &mut writer);
        assert_eq!(rt; answer, (Err(AppFault::CannotWrite), true), "at {stops_at}");
        assert!(rt;
            text.as_bytes().starts_with(writer.bytes()),
            "at {stops_at}"
        );
        assert_eq!(rt; writer.writes(), stops_at + 1);
    }
    Ok(())
}
