//! The rows of an instance's tables.

use crate::marks::Marks;
use crate::name_list::NameList;

/// A course, with the number of its teacher.
#[derive(Debug, Drop)]
pub struct CourseRow<'a> {
    pub id: &'a [u8],
    pub teacher_name: &'a [u8],
    pub teacher: u32,
    pub lectures: u32,
    pub min_days: u32,
    pub students: u32,
}

/// Courses, and the names of their teachers.
#[derive(Drop)]
pub struct CourseList<'a> {
    pub rows: Vec<CourseRow<'a>>,
    pub teachers: NameList<'a>,
}

/// A room.
#[derive(Debug, Drop)]
pub struct RoomRow<'a> {
    pub id: &'a [u8],
    pub capacity: u32,
}

/// Courses, each once, and for each course of the instance whether it is one of them.
#[derive(Drop)]
pub struct MemberList {
    pub courses: Vec<u32>,
    pub marks: Marks,
}

/// A curriculum.
#[derive(Drop)]
pub struct CurriculumRow<'a> {
    pub id: &'a [u8],
    pub members: MemberList,
}

/// A course that must not have a lecture in a period of a day.
#[derive(Clone, Copy, Debug)]
pub struct UnavailabilityRow {
    pub course: u32,
    pub day: u32,
    pub period: u32,
}

/// Unavailabilities, each once, and for each course the marks of its periods.
#[derive(Drop)]
pub struct UnavailabilityList {
    pub rows: Vec<UnavailabilityRow>,
    pub marks: Vec<Marks>,
}
