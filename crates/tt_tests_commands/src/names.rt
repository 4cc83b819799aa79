//! Names and files with letters that don't show, in what the commands print and write.

use std::alloc::Global;
use std::test::Fail;
use tt_testing_runs::{MemoryFiles, Outcome, run_on, run_with};
use tt_testing_samples::{MINI, edited};

/// A course with more lectures than open periods, and other remarkable data.
const SOLO: &str =
    "Name: Solo\nCourses: 2\nRooms: 2\nDays: 2\nPeriods_per_day: 1\nCurricula: 1\nConstraints: 1\n\nCOURSES:\na t1 2 3 10\nb t2 1 1 12\n\nROOMS:\nR 11\nS 9\n\nCURRICULA:\nq 1 a\n\nUNAVAILABILITY_CONSTRAINTS:\na 0 0\n\nEND.\n";

/// Returns the outcome of `inspect` for an instance.
fn inspected(alloc: Global, instance: &[u8]) -> Result<Outcome, Fail> {
    run_with(alloc, &["inspect", "a.ctt"], &[("a.ctt", instance)])
}

#[test]
fn letters_of_names(rt: HostRuntime) -> Result<(), Fail> {
    for name in ["a\u{7}b", "a\u{85}b", "a\u{202E}b"] {
        let row = format!(in rt.alloc(); "\n{name} t1 2 3 10")?;
        let group = format!(in rt.alloc(); "q 1 {name}")?;
        let bar = format!(in rt.alloc(); "\n{name} 0 0\n")?;
        let instance = edited(rt.alloc(), SOLO, "\na t1 2 3 10", row.as_str())?;
        let instance = edited(rt.alloc(), instance.as_str(), "q 1 a", group.as_str())?;
        let instance = edited(rt.alloc(), instance.as_str(), "\na 0 0\n", bar.as_str())?;
        let outcome = inspected(rt.alloc(), instance.as_bytes())?;
        let line = "costs 5 at least: course a?b wants 3 days, the week has 2\n";
        assert!(rt; outcome.out.contains(line), "{}", outcome.out);
    }
    Ok(())
}

#[test]
fn a_byte_order_mark(rt: HostRuntime) -> Result<(), Fail> {
    let instance = edited(rt.alloc(), MINI, "Name: Mini", "\u{FEFF}Name: Mini")?;
    let outcome = inspected(rt.alloc(), instance.as_bytes())?;
    let lines =
        "instance: Expected Name: at byte 0\nline 1, column 1: ?Name: is there, Name: was expected\n  ?Name: Mini\n  ^\nlikely: the file begins with a byte order mark; save it as UTF-8 without one\n";
    assert_eq!(rt; outcome.answer(), (2, lines, ""));
    Ok(())
}

#[test]
fn a_file_in_another_encoding(rt: HostRuntime) -> Result<(), Fail> {
    let outcome = inspected(rt.alloc(), b"\xFF\xFEN\x00a\x00".as_slice())?;
    let end = "likely: the file is in UTF-16; save it as UTF-8\n";
    assert!(rt; outcome.out.ends_with(end), "{}", outcome.out);
    Ok(())
}

#[test]
fn controls_in_a_calendar(rt: HostRuntime) -> Result<(), Fail> {
    let instance = edited(rt.alloc(), MINI, "a t1 ", "a t\u{1}\u{7f}\u{85} ")?;
    let words = [
        "report",
        "a.ctt",
        "a.sol",
        "--by",
        "room",
        "--ics",
        "R",
        "--first-day",
        "9999-12-31",
        "--times",
        "8:00,9:05,23:30",
    ];
    let files = [
        ("a.ctt", instance.as_bytes()),
        ("a.sol", b"a R 0 2".as_slice()),
    ];
    let outcome = run_with(rt.alloc(), &words, &files)?;
    let out = outcome.out.as_str();
    assert!(rt; out.contains("\r\nDESCRIPTION:t???\r\n"), "{out}");
    assert!(rt;
        out.contains("\r\nDTSTART:99991231T233000\r\nDURATION:PT45M\r\n"),
        "{out}"
    );
    Ok(())
}

#[test]
fn controls_in_a_report(rt: HostRuntime) -> Result<(), Fail> {
    for name in ["R\u{1b}]0;x\u{7}", "R\u{9b}2J", "R\u{7f}"] {
        let teacher = format!(in rt.alloc(); "a {name} ")?;
        let instance = edited(rt.alloc(), MINI, "a t1 ", &teacher)?;
        let files = [
            ("a.ctt", instance.as_bytes()),
            ("a.sol", b"a R 0 0 b R 0 1".as_slice()),
        ];
        let words = ["report", "a.ctt", "a.sol", "--by", "teacher"];
        let outcome = run_with(rt.alloc(), &words, &files)?;
        let out = outcome.out.as_str();
        assert!(rt; out.starts_with("teacher R?"), "{out}");
        assert!(rt;
            out.chars()
                .all(|letter| letter == '\n' || !letter.is_control())
        );
    }
    Ok(())
}

/// Three courses, three rooms and two days of two periods.
const CHANGED: &str =
    "Name: w Courses: 3 Rooms: 3 Days: 2 Periods_per_day: 2 Curricula: 0 Constraints: 0
COURSES: algebra noether 3 1 10 logic hilbert 2 1 10 optics curie 1 1 10
ROOMS: hall 30 lab 20 attic 10
CURRICULA: UNAVAILABILITY_CONSTRAINTS: END.";

#[test]
fn controls_in_changes(rt: HostRuntime) -> Result<(), Fail> {
    let alloc = rt.alloc();
    let name = "o\u{1b}]0;ü\u{7}";
    let week = edited(alloc, CHANGED, "optics", name)?;
    let solution = format!(in alloc; "{name} hall 0 0")?;
    let files = [
        ("a.ctt", week.as_bytes()),
        ("a.sol", solution.as_bytes()),
        ("b.sol", b"".as_slice()),
    ];
    let words = ["report", "a.ctt", "a.sol", "--changes", "b.sol"];
    let outcome = run_with(alloc, &words, &files)?;
    let out = "added o?]0;ü? hall 0 0\nmoved 0 rooms 0\n";
    assert_eq!(rt; outcome.answer(), (0, out, ""));
    Ok(())
}

/// Two courses, two rooms and two days of two periods.
const WEEK: &str =
    "Name: w Courses: 2 Rooms: 2 Days: 2 Periods_per_day: 2 Curricula: 1 Constraints: 0
COURSES: algebra noether 2 1 10 logic hilbert 2 1 10
ROOMS: hall 30 lab 20
CURRICULA: q 2 algebra logic UNAVAILABILITY_CONSTRAINTS: END.";

/// Each course with its lectures.
const OLDER: &str = "algebra hall 0 0 algebra hall 0 1 logic lab 1 0 logic lab 1 1";

/// One lecture of algebra is on another day, and one of logic is in the other room.
const NEWER: &str = "algebra hall 0 0 algebra lab 1 1 logic lab 1 0 logic hall 1 1";

#[test]
fn names_stay_in_their_strings(rt: HostRuntime) -> Result<(), Fail> {
    let week = edited(rt.alloc(), WEEK, "hall 30", "\"}</style>\\ 30")?;
    let newer = edited(rt.alloc(), NEWER, "hall 0 0", "\"}</style>\\ 0 0")?;
    let newer = edited(rt.alloc(), &newer, "hall 1 1", "\"}</style>\\ 1 1")?;
    let older = edited(rt.alloc(), OLDER, "hall 0 0", "\"}</style>\\ 0 0")?;
    let older = edited(rt.alloc(), &older, "hall 0 1", "\"}</style>\\ 0 1")?;
    let memory = MemoryFiles::new(rt.alloc());
    memory.put("a.ctt", week.as_bytes())?;
    memory.put("a.sol", newer.as_bytes())?;
    memory.put("b.sol", older.as_bytes())?;
    let words = [
        "page",
        "a.ctt",
        "a.sol",
        "a.html",
        "--older",
        "b.sol",
        "--days",
        "M\"o'n&,Tue",
        "--periods",
        "8:00,ü",
    ];
    run_on(rt.alloc(), &words, &memory)?;
    let text = memory.text("a.html")?.unwrap_or(String::new(rt.alloc()));
    assert!(rt;
        text.contains("--from: \"from M\\22 o\\27 n\\26 , ü, in \\22 }\\3c /style\\3e \\5c \"; }\n")
    );
    assert!(rt;
        text.contains(
            "moved from M&quot;o&#39;n&amp;, ü, in <a href=\"#room0\">&quot;}&lt;/style&gt;\\</a>"
        )
    );
    Ok(())
}
