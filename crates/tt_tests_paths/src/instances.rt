//! Two small random instances, as they are in examples/.

/// Four courses in three curricula, two rooms, and two days of three periods.
pub const TINY05: &str =
    "Name: tiny05\nCourses: 4\nRooms: 2\nDays: 2\nPeriods_per_day: 3\nCurricula: 3\nConstraints: 10\n\nCOURSES:\nc0000 t003 2 2 55\nc0001 t000 3 2 47\nc0002 t001 2 2 16\nc0003 t002 1 1 31\n\nROOMS:\nrA 60\nrB 30\n\nCURRICULA:\nq000 3 c0000 c0002 c0003\nq001 2 c0000 c0002\nq002 2 c0002 c0003\n\nUNAVAILABILITY_CONSTRAINTS:\nc0001 0 2\nc0001 1 1\nc0001 1 2\nc0002 0 1\nc0002 0 2\nc0002 1 0\nc0002 1 2\nc0003 1 0\nc0003 1 1\nc0003 1 2\n\nEND.\n";

/// Five courses in three curricula, two of one teacher, two rooms, and three days of three periods.
pub const SMALL01: &str =
    "Name: small01\nCourses: 5\nRooms: 2\nDays: 3\nPeriods_per_day: 3\nCurricula: 3\nConstraints: 18\n\nCOURSES:\nc0000 t000 1 1 42\nc0001 t002 2 1 43\nc0002 t001 4 3 117\nc0003 t003 2 2 14\nc0004 t002 2 2 34\n\nROOMS:\nrA 120\nrB 40\n\nCURRICULA:\nq000 3 c0003 c0002 c0004\nq001 2 c0001 c0000\nq002 2 c0003 c0004\n\nUNAVAILABILITY_CONSTRAINTS:\nc0001 0 0\nc0001 0 1\nc0001 0 2\nc0001 2 1\nc0001 2 2\nc0002 0 1\nc0002 0 2\nc0002 1 2\nc0002 2 1\nc0002 2 2\nc0003 0 0\nc0003 0 1\nc0003 1 1\nc0003 2 1\nc0004 0 0\nc0004 0 2\nc0004 2 0\nc0004 2 2\n\nEND.\n";
