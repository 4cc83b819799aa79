//! The parts of an instance.

use crate::rows::{CourseList, CurriculumRow, RoomRow, UnavailabilityList};

/// The contents of the bytes of an instance.
#[derive(Drop)]
pub struct Parts<'a> {
    pub name: Vec<&'a [u8]>,
    pub days: u32,
    pub periods: u32,
    pub courses: CourseList<'a>,
    pub rooms: Vec<RoomRow<'a>>,
    pub curricula: Vec<CurriculumRow<'a>>,
    pub unavailabilities: UnavailabilityList,
}
