//! Instances of the tests in this crate.

/// Two courses, and two rooms on two days of two periods.
pub const WEEK: &str =
    "Name: Week\nCourses: 2\nRooms: 2\nDays: 2\nPeriods_per_day: 2\nCurricula: 0\nConstraints: 0\n\nCOURSES:\na t1 2 2 10\nb t2 1 1 10\n\nROOMS:\nA 10\nB 10\n\nCURRICULA:\n\nUNAVAILABILITY_CONSTRAINTS:\n\nEND.\n";
