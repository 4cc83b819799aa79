//! A large instance.

use std::alloc::{AllocError, Global};

/// Returns the lines of this many rooms.
fn room_lines(alloc: Global, rooms: u32) -> Result<String, AllocError> {
    let mut lines = String::new(alloc);
    for room in 0..rooms {
        let seats = 20 + room % 50;
        let line = format!(in alloc; "r{room} {seats}\n")?;
        lines.push_str(line.as_str())?;
    }
    Ok(lines)
}

/// Returns the text of an instance of four courses in two curricula, 512 rooms, and two days of 64 periods.
pub fn large_text(alloc: Global) -> Result<String, AllocError> {
    let rooms = room_lines(alloc, 512)?;
    let mut text = String::new(alloc);
    text.push_str(
        "Name: Large\nCourses: 4\nRooms: 512\nDays: 2\nPeriods_per_day: 64\nCurricula: 2\nConstraints: 2\n\n",
    )?;
    text.push_str("COURSES:\na t1 3 2 30\nb t2 2 1 45\nc t1 1 1 60\nd t3 1 1 25\n\nROOMS:\n")?;
    text.push_str(rooms.as_str())?;
    text.push_str(
        "\nCURRICULA:\nq 2 a b\nk 3 b c d\n\nUNAVAILABILITY_CONSTRAINTS:\na 0 63\nd 1 0\n\nEND.\n",
    )?;
    Ok(text)
}
