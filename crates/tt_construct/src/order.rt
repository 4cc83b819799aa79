//! The choice of the next course.

use crate::instance_data::InstanceData;
use crate::placed::{CourseState, PlacedLectures};
use rand_core::Rng;
use rand_pcg::Pcg32;

/// The rank of a course: the first part that differs decides, and the course of the least rank is next.
#[derive(Clone, Copy, PartialEq, Eq, PartialOrd, Ord)]
struct CourseRank {
    /// The open periods for each lecture that is left and each failure, in 1024ths.
    open: u64,
    /// A random number.
    lot: u32,
}

/// A rank above that of any course.
const HIGHEST: CourseRank = CourseRank {
    open: u64::MAX,
    lot: u32::MAX,
};

/// Returns the rank of a course with this number of failures.
fn rank_of(state: CourseState, failures: u32, lot: u32) -> CourseRank {
    let wanted = u64::from(state.left) * (u64::from(failures) + 1);
    let open = u64::from(state.open) * 1024;
    CourseRank {
        open: open.checked_div(wanted).unwrap_or(u64::MAX),
        lot,
    }
}

/// Returns the next course: the one with the fewest open periods for each lecture that is left, sooner
/// if it failed in earlier rounds. Returns `None` if all lectures are placed.
pub fn next_course(
    data: &InstanceData,
    placed: &PlacedLectures,
    failures: &[u32],
    rng: &mut Pcg32,
) -> Option<u32> {
    let mut next = None;
    let mut least = HIGHEST;
    for number in 0..data.course_count {
        let state = placed.state_of(number);
        if state.left > 0 {
            let failed = failures.get(number as usize).copied().unwrap_or(0);
            let rank = rank_of(state, failed, rng.next_u32());
            if rank < least {
                least = rank;
                next = Some(number);
            }
        }
    }
    next
}
