//! Names that should be checked, a line for each kind.

use std::alloc::AllocError;
use std::fmt;
use tt_inspect_words::{Counted, Counts, Name, Noun};
use tt_instance::Instance;

/// The maximum number of names of a line.
const MAX_NAMES: u64 = 8;

/// What should be checked of the things that a line lists.
#[derive(Clone, Copy)]
enum Concern {
    /// Courses that are in no curriculum.
    NoCurriculum,
    /// Curricula that have fewer than two courses.
    FewCourses,
    /// Rooms that have fewer seats than this.
    FewSeats(u32),
}

impl Concern {
    /// Returns what the line lists.
    fn noun(self) -> Noun {
        match self {
            Concern::NoCurriculum => Noun::CourseThatIs,
            Concern::FewCourses => Noun::CurriculumThatHas,
            Concern::FewSeats(_) => Noun::RoomThatIs,
        }
    }

    /// Returns the number of things of the kind that the line lists.
    fn candidates(self, instance: &Instance<'_>) -> u32 {
        match self {
            Concern::NoCurriculum => instance.courses(),
            Concern::FewCourses => instance.curricula(),
            Concern::FewSeats(_) => instance.rooms(),
        }
    }

    /// Returns the name of a thing; `None` if the line doesn't list it.
    fn name_of<'a>(
        self,
        instance: &'a Instance<'_>,
        counts: &Counts,
        index: u32,
    ) -> Option<Name<'a>> {
        let bytes = match self {
            Concern::NoCurriculum => {
                if index >= instance.courses() || counts.of_course(index).curricula > 0 {
                    return None;
                }
                instance.course_id(index)
            }
            Concern::FewCourses => {
                if index >= instance.curricula() || instance.members(index).len() >= 2 {
                    return None;
                }
                instance.curriculum_id(index)
            }
            Concern::FewSeats(students) => {
                if index >= instance.rooms() || instance.capacity(index) >= students {
                    return None;
                }
                instance.room_id(index)
            }
        };
        Some(Name { bytes })
    }

    /// Counts the things that the line lists.
    fn count(self, instance: &Instance<'_>, counts: &Counts) -> u64 {
        let mut found: u64 = 0;
        for index in 0..self.candidates(instance) {
            if self.name_of(instance, counts, index).is_some() {
                found = found.saturating_add(1);
            }
        }
        found
    }
}

impl fmt::Display for Concern {
    fn fmt<W: fmt::Write>(&self, f: &mut fmt::Formatter<W>) -> fmt::Result {
        f.write_str(match self {
            Concern::NoCurriculum => "in no curriculum",
            Concern::FewCourses => "fewer than two courses",
            Concern::FewSeats(_) => "too small for every course",
        })
    }
}

/// Appends the names of things, each after a space, and not all of them if there are many.
fn put_names(
    text: &mut String,
    instance: &Instance<'_>,
    counts: &Counts,
    concern: Concern,
) -> Result<(), AllocError> {
    let mut shown: u64 = 0;
    for index in 0..concern.candidates(instance) {
        if let Some(name) = concern.name_of(instance, counts, index) {
            if shown == MAX_NAMES {
                return text.push_str(" ..\n");
            }
            write!(text, " {name}")?;
            shown = shown.saturating_add(1);
        }
    }
    text.push_str("\n")
}

/// Appends a line of things, if there are any.
fn put_concern(
    text: &mut String,
    instance: &Instance<'_>,
    counts: &Counts,
    concern: Concern,
) -> Result<(), AllocError> {
    let count = concern.count(instance, counts);
    if count == 0 {
        return Ok(());
    }
    let found = Counted(count, concern.noun());
    write!(text, "look at: {found} {concern}:")?;
    put_names(text, instance, counts, concern)
}

/// Returns the number of students of the smallest course; 0 if there is no course.
fn fewest_students(instance: &Instance<'_>) -> u32 {
    if instance.courses() == 0 {
        return 0;
    }
    let mut fewest: u32 = u32::MAX;
    for course in 0..instance.courses() {
        fewest = fewest.min(instance.students(course));
    }
    fewest
}

/// Appends a line of the courses that are in no curriculum, one of the curricula that have fewer than two courses, and one of the rooms that seat
/// no course, each if there are any.
pub fn put_concerns(
    text: &mut String,
    instance: &Instance<'_>,
    counts: &Counts,
) -> Result<(), AllocError> {
    put_concern(text, instance, counts, Concern::NoCurriculum)?;
    put_concern(text, instance, counts, Concern::FewCourses)?;
    let too_small = Concern::FewSeats(fewest_students(instance));
    put_concern(text, instance, counts, too_small)
}
