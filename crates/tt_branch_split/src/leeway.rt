//! The freedom that the courses of a path still have.

use crate::prospects::Prospects;
use std::alloc::{AllocError, Global};

/// The number of periods of a course that are live and not pinned, and the number of its lectures that are not pinned.
#[derive(Clone, Copy)]
pub struct Leeway {
    pub open: u32,
    pub left: u32,
}

/// The freedom of a course without an open period.
const DONE: u32 = u32::MAX;

/// Returns a number's logarithm to the base 2, in sixteenths.
fn logarithm(number: u32) -> u32 {
    let whole = number.checked_ilog2().unwrap_or(0);
    let scaled = number.saturating_mul(16).checked_shr(whole).unwrap_or(16);
    whole
        .saturating_mul(16)
        .saturating_add(scaled.saturating_sub(16))
}

impl Leeway {
    /// Returns the logarithm of the number of ways to choose the periods that a course still needs, in sixteenths; 0 if they are forced.
    pub fn ways(self) -> u32 {
        let mut total: u32 = 0;
        for chosen in 0..self.left.min(self.open.saturating_sub(self.left)) {
            let more = logarithm(self.open.saturating_sub(chosen));
            let fewer = logarithm(chosen.saturating_add(1));
            total = total.saturating_add(more).saturating_sub(fewer);
        }
        total
    }

    /// Returns the leeway with one open period less.
    pub fn barred(self) -> Leeway {
        Leeway {
            open: self.open.saturating_sub(1),
            left: self.left,
        }
    }

    /// Returns the leeway with one open period less and a lecture in it.
    pub fn pinned(self) -> Leeway {
        Leeway {
            open: self.open.saturating_sub(1),
            left: self.left.saturating_sub(1),
        }
    }
}

/// The freedom of each course, by number.
#[derive(Drop)]
pub struct Freedom {
    ways: Vec<u32>,
}

impl Freedom {
    /// Returns the freedom of the courses of a path.
    pub fn new(alloc: Global, prospects: &Prospects) -> Result<Freedom, AllocError> {
        let mut all = Vec::new(alloc);
        for prospect in prospects.courses() {
            all.push(if prospect.leeway.open == 0 {
                DONE
            } else {
                prospect.ways
            })?;
        }
        Ok(Freedom { ways: all })
    }

    fn of(&self, course: u32) -> u32 {
        self.ways.get(course as usize).copied().unwrap_or(DONE)
    }

    /// Returns the logarithm of the number of ways to choose all periods that are needed, in sixteenths.
    pub fn total(&self) -> u64 {
        let mut total: u64 = 0;
        for ways in &self.ways {
            if *ways < DONE {
                total = total.saturating_add(u64::from(*ways));
            }
        }
        total
    }

    /// Returns the least free of some courses that has an open period.
    pub fn least_of(&self, courses: &[u32]) -> Option<u32> {
        let mut found = None;
        let mut least = DONE;
        for course in courses {
            let ways = self.of(*course);
            if ways < least {
                found = Some(*course);
                least = ways;
            }
        }
        found
    }

    /// Returns the least free course that has an open period.
    pub fn least(&self) -> Option<u32> {
        let mut found = None;
        let mut least = DONE;
        let mut course: u32 = 0;
        for ways in &self.ways {
            if *ways < least {
                found = Some(course);
                least = *ways;
            }
            course = course.saturating_add(1);
        }
        found
    }

    /// Checks whether the periods of a course are forced.
    pub fn is_forced(&self, course: u32) -> bool {
        self.of(course) == 0
    }

    /// Returns the average freedom of courses, in 256ths, where a course without an open period counts as 0; `None`
    /// if no course has one.
    pub fn mean(&self, courses: &[u32]) -> Option<u64> {
        let mut total: u64 = 0;
        let mut any = false;
        for course in courses {
            let ways = self.of(*course);
            if ways < DONE {
                total = total.saturating_add(u64::from(ways));
                any = true;
            }
        }
        if !any {
            return None;
        }
        total.saturating_mul(256).checked_div(courses.len() as u64)
    }
}
