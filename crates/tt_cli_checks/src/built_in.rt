//! An instance, a solution and a proof of its bound, for a first run.

/// One course of two lectures that needs three of five days.
pub const INSTANCE: &[u8] =
    b"Name: Wide\nCourses: 1\nRooms: 1\nDays: 5\nPeriods_per_day: 1\nCurricula: 0\nConstraints: 0\n\nCOURSES:\na t1 2 3 10\n\nROOMS:\nR 11\n\nCURRICULA:\n\nUNAVAILABILITY_CONSTRAINTS:\n\nEND.\n";

/// Both lectures on different days: one day is missing.
pub const SOLUTION: &[u8] = b"a R 0 0\na R 1 0\n";

/// Two lectures reach at most two days.
pub const PROOF: &[u8] = b"CTTP 1 bound 5\nB D c0 ;\nend\n";
