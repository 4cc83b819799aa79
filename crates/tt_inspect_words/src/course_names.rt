//! Names of courses in a row.

use crate::shown::Name;
use std::alloc::AllocError;
use tt_instance::Instance;

/// The maximum number of courses that a line names.
const MAX_NAMED: usize = 12;

/// Returns what comes before a name in a row of so many.
fn joint(index: usize, count: usize) -> &'static str {
    if index == 0 {
        ""
    } else if index.saturating_add(1) == count {
        " and "
    } else {
        ", "
    }
}

/// Appends the names of courses, and not all of them if there are many.
pub fn put_names(
    text: &mut String,
    instance: &Instance<'_>,
    courses: &[u32],
) -> Result<(), AllocError> {
    let count = courses.len();
    let mut index: usize = 0;
    for course in courses {
        if index == MAX_NAMED {
            let more = count.saturating_sub(MAX_NAMED);
            return write!(text, " and {more} more");
        }
        if *course < instance.courses() {
            let joint = joint(index, count);
            let name = Name {
                bytes: instance.course_id(*course),
            };
            write!(text, "{joint}{name}")?;
        }
        index = index.saturating_add(1);
    }
    Ok(())
}
