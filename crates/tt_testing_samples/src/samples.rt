//! Instances and solutions that several tests share.

use std::alloc::{AllocError, Global};
use std::test::Fail;

/// Two courses in one curriculum, a room that is too small for the second, and three periods of one day.
pub const MINI: &str =
    "Name: Mini\nCourses: 2\nRooms: 1\nDays: 1\nPeriods_per_day: 3\nCurricula: 1\nConstraints: 0\n\nCOURSES:\na t1 1 1 10\nb t2 1 1 12\n\nROOMS:\nR 11\n\nCURRICULA:\nq 2 a b\n\nUNAVAILABILITY_CONSTRAINTS:\n\nEND.\n";

/// Mini with no course available in the middle period.
pub const GAP: &str =
    "Name: Gap\nCourses: 2\nRooms: 1\nDays: 1\nPeriods_per_day: 3\nCurricula: 1\nConstraints: 2\n\nCOURSES:\na t1 1 1 10\nb t2 1 1 12\n\nROOMS:\nR 11\n\nCURRICULA:\nq 2 a b\n\nUNAVAILABILITY_CONSTRAINTS:\na 0 1\nb 0 1\n\nEND.\n";

/// Mini over two days of one period.
pub const LONG: &str =
    "Name: Long\nCourses: 2\nRooms: 1\nDays: 2\nPeriods_per_day: 1\nCurricula: 1\nConstraints: 0\n\nCOURSES:\na t1 1 1 10\nb t2 1 1 12\n\nROOMS:\nR 11\n\nCURRICULA:\nq 2 a b\n\nUNAVAILABILITY_CONSTRAINTS:\n\nEND.\n";

/// One course of two lectures that needs three of five days.
pub const WIDE: &str =
    "Name: Wide\nCourses: 1\nRooms: 1\nDays: 5\nPeriods_per_day: 1\nCurricula: 0\nConstraints: 0\n\nCOURSES:\na t1 2 3 10\n\nROOMS:\nR 11\n\nCURRICULA:\n\nUNAVAILABILITY_CONSTRAINTS:\n\nEND.\n";

/// Two courses that do not conflict, and one room in one period.
pub const APART: &str =
    "Name: Apart\nCourses: 2\nRooms: 1\nDays: 1\nPeriods_per_day: 1\nCurricula: 0\nConstraints: 0\n\nCOURSES:\nx t1 1 1 1\ny t2 1 1 1\n\nROOMS:\nA 10\n\nCURRICULA:\n\nUNAVAILABILITY_CONSTRAINTS:\n\nEND.\n";

/// Two courses of one teacher, and two rooms in one period.
pub const SAME: &str =
    "Name: Same\nCourses: 2\nRooms: 2\nDays: 1\nPeriods_per_day: 1\nCurricula: 0\nConstraints: 0\n\nCOURSES:\nx t 1 1 1\ny t 1 1 1\n\nROOMS:\nA 10\nB 10\n\nCURRICULA:\n\nUNAVAILABILITY_CONSTRAINTS:\n\nEND.\n";

/// Two courses, and two rooms in one period, of which one is too small for either.
pub const SEATS: &str =
    "Name: Seats\nCourses: 2\nRooms: 2\nDays: 1\nPeriods_per_day: 1\nCurricula: 0\nConstraints: 0\n\nCOURSES:\nx t1 1 1 10\ny t2 1 1 10\n\nROOMS:\nA 10\nB 5\n\nCURRICULA:\n\nUNAVAILABILITY_CONSTRAINTS:\n\nEND.\n";

/// Three courses in one curriculum, and one room in one period.
pub const TRIO: &str =
    "Name: Trio\nCourses: 3\nRooms: 1\nDays: 1\nPeriods_per_day: 1\nCurricula: 1\nConstraints: 0\n\nCOURSES:\nx t1 1 1 1\ny t2 1 1 1\nz t3 1 1 1\n\nROOMS:\nA 10\n\nCURRICULA:\nq 3 x y z\n\nUNAVAILABILITY_CONSTRAINTS:\n\nEND.\n";

/// One course of three lectures, and two rooms on three days of one period.
pub const TOUR: &str =
    "Name: Tour\nCourses: 1\nRooms: 2\nDays: 3\nPeriods_per_day: 1\nCurricula: 0\nConstraints: 0\n\nCOURSES:\nx t1 3 3 1\n\nROOMS:\nA 10\nB 10\n\nCURRICULA:\n\nUNAVAILABILITY_CONSTRAINTS:\n\nEND.\n";

/// Both lectures of Wide, on different days.
pub const WIDE_SOLUTION: &str = "a R 0 0\na R 1 0\n";

/// One course with the maximum number of lectures, and a room without a seat.
pub const CROWDED: &str =
    "Name: Crowded\nCourses: 1\nRooms: 1\nDays: 1\nPeriods_per_day: 1\nCurricula: 0\nConstraints: 0\n\nCOURSES:\nx t 4096 1 1000000\n\nROOMS:\nA 0\n\nCURRICULA:\n\nUNAVAILABILITY_CONSTRAINTS:\n\nEND.\n";

/// A course of four lectures, four periods of one day and two rooms.
pub const FLAT: &str =
    "Name: Flat\nCourses: 1\nRooms: 2\nDays: 1\nPeriods_per_day: 4\nCurricula: 0\nConstraints: 0\n\nCOURSES:\nx t 4 1 1\n\nROOMS:\nA 10\nB 10\n\nCURRICULA:\n\nUNAVAILABILITY_CONSTRAINTS:\n\nEND.\n";

/// The lectures of Flat in both rooms; no single step improves this timetable.
pub const FLAT_SOLUTION: &str = "x A 0 0\nx A 0 1\nx B 0 2\nx B 0 3\n";

/// Five courses in a circle, of which neighbours conflict, in two periods.
pub const CIRCLE: &str =
    "Name: circle\nCourses: 5\nRooms: 3\nDays: 1\nPeriods_per_day: 2\nCurricula: 5\nConstraints: 0\n\nCOURSES:\na s 1 1 1\nb t 1 1 1\nc u 1 1 1\nd v 1 1 1\ne w 1 1 1\n\nROOMS:\nR 1\nS 1\nT 1\n\nCURRICULA:\nq 2 a b\nr 2 b c\ns 2 c d\nt 2 d e\nu 2 e a\n\nUNAVAILABILITY_CONSTRAINTS:\n\nEND.\n";

/// Mini with a curriculum over two lines, two rooms in one line, and two unavailabilities.
pub const LINES: &str =
    "Name: Mini\nCourses: 2\nRooms: 3\nDays: 1\nPeriods_per_day: 3\nCurricula: 2\nConstraints: 2\n\nCOURSES:\na t1 1 1 10\nb t2 1 1 12\n\nROOMS:\nR 11 S 12\nT 9\n\nCURRICULA:\nq 2\na b\nr 1 a\n\nUNAVAILABILITY_CONSTRAINTS:\na 0 1\nb 0 2\n\nEND.\n";

/// Two lectures that are to be on two days, each of two periods.
pub const PAIR: &str =
    "Name: Pair\nCourses: 1\nRooms: 1\nDays: 2\nPeriods_per_day: 2\nCurricula: 0\nConstraints: 0\n\nCOURSES:\na t 2 2 1\n\nROOMS:\nR 1\n\nCURRICULA:\n\nUNAVAILABILITY_CONSTRAINTS:\n\nEND.\n";

/// Both lectures of Mini, each isolated.
pub const MINI_SOLUTION: &str = "a R 0 0\nb R 0 2\n";

/// Gap costs at least 5, for any periods of its courses.
pub const GAP_PROOF: &str =
    "CTTP 1 bound 5\nS c0 * d0 p0\nS c1 * d0 p2\nB C c1 1 Q q0 ;\nK c1 ;\nS c0 * d0 p2\nS c1 * d0 p0\nB C c1 1 Q q0 ;\nK c1 ;\nK c0 ;\nend\n";

/// A line that a test of memory prints before and after its call: between the two, hostile/run.py refuses allocations.
pub const MARK: &str = "mark";

/// Returns the sample with a name.
pub fn sample(name: &str) -> Result<&'static str, Fail> {
    let text = match name {
        "MINI" => MINI,
        "GAP" => GAP,
        "LONG" => LONG,
        "WIDE" => WIDE,
        "APART" => APART,
        "SAME" => SAME,
        "SEATS" => SEATS,
        "TRIO" => TRIO,
        "TOUR" => TOUR,
        "WIDE_SOLUTION" => WIDE_SOLUTION,
        "CROWDED" => CROWDED,
        "FLAT" => FLAT,
        "FLAT_SOLUTION" => FLAT_SOLUTION,
        "CIRCLE" => CIRCLE,
        "LINES" => LINES,
        "PAIR" => PAIR,
        "MINI_SOLUTION" => MINI_SOLUTION,
        "GAP_PROOF" => GAP_PROOF,
        _ => return Err(Fail::new(format_args!("{name} is no sample"))),
    };
    Ok(text)
}

/// Returns a text in which the first occurrence of some words is replaced by others.
pub fn edited(alloc: Global, text: &str, old: &str, new: &str) -> Result<String, Fail> {
    match text.split_once(old) {
        Some((before, after)) => Ok(format!(in alloc; "{before}{new}{after}")?),
        None => Err(Fail::new(format_args!("{old} is not there"))),
    }
}

/// Returns a text repeated this many times.
pub fn repeated(alloc: Global, text: &str, times: usize) -> Result<String, AllocError> {
    let mut all = String::new(alloc);
    for _ in 0..times {
        all.push_str(text)?;
    }
    Ok(all)
}
