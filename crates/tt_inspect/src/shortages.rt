//! Courses that have more lectures than is open to them, in words.

use std::alloc::AllocError;
use tt_inspect_words::{Counted, Name, Noun, periods_of_week, put_names};
use tt_instance::{Instance, Slot};
use tt_shortage::{Contested, Shortage, find_shortages};

/// The maximum number of lines.
const MAX_LINES: usize = 8;

/// The maximum number of shortages that are looked for; those that other lines say already are left out.
const MAX_FOUND: usize = 24;

/// The maximum number of periods that a line names.
const MAX_PERIODS_NAMED: usize = 12;

/// What the courses of a shortage have in common.
#[derive(Clone, Copy)]
enum Common {
    /// There is one course.
    Course,
    /// All have this teacher.
    Teacher(u32),
    /// All are in this curriculum.
    Curriculum(u32),
    /// Any two of them conflict.
    Conflicts,
    /// They need the same rooms.
    Rooms,
}

/// Returns the teacher of all of some courses, if there is one.
fn common_teacher(instance: &Instance<'_>, courses: &[u32]) -> Option<u32> {
    let mut found: Option<u32> = None;
    for course in courses {
        if *course >= instance.courses() {
            return None;
        }
        let teacher = instance.teacher_of(*course);
        if found.is_some_and(|other| other != teacher) {
            return None;
        }
        found = Some(teacher);
    }
    found
}

/// Returns whether all of some courses are in a curriculum.
fn are_in(instance: &Instance<'_>, curriculum: u32, courses: &[u32]) -> bool {
    for course in courses {
        if !instance.in_curriculum(curriculum, *course) {
            return false;
        }
    }
    true
}

/// Returns the first curriculum that has all of some courses.
fn common_curriculum(instance: &Instance<'_>, courses: &[u32]) -> Option<u32> {
    for curriculum in 0..instance.curricula() {
        if are_in(instance, curriculum, courses) {
            return Some(curriculum);
        }
    }
    None
}

/// Returns what the courses of a shortage have in common.
fn common_of(instance: &Instance<'_>, shortage: &Shortage) -> Common {
    let courses = shortage.courses.as_slice();
    if shortage.contested == Contested::Places {
        return Common::Rooms;
    }
    if courses.len() == 1 {
        return Common::Course;
    }
    if let Some(teacher) = common_teacher(instance, courses) {
        return Common::Teacher(teacher);
    }
    if let Some(curriculum) = common_curriculum(instance, courses) {
        return Common::Curriculum(curriculum);
    }
    Common::Conflicts
}

/// Returns whether the line of a whole group or of all rooms says a shortage already: one of a week that is too short.
fn is_said(instance: &Instance<'_>, shortage: &Shortage, common: Common) -> bool {
    let is_whole = shortage.slots.len() as u64 == periods_of_week(instance);
    match common {
        Common::Course | Common::Conflicts => false,
        Common::Teacher(_) | Common::Curriculum(_) => is_whole,
        Common::Rooms => is_whole || instance.rooms() == 0,
    }
}

/// Appends periods, unless they are many.
fn put_slots(text: &mut String, instance: &Instance<'_>, slots: &[Slot]) -> Result<(), AllocError> {
    if slots.len() as u64 == periods_of_week(instance) {
        return text.push_str(", all of the week");
    }
    if slots.len() > MAX_PERIODS_NAMED {
        return Ok(());
    }
    let mut joint = ": ";
    for slot in slots {
        let day = slot.day.saturating_add(1);
        let period = slot.period.saturating_add(1);
        write!(text, "{joint}day {day} period {period}")?;
        joint = ", ";
    }
    Ok(())
}

/// Appends the courses of a shortage, and what they have in common.
fn put_courses(
    text: &mut String,
    instance: &Instance<'_>,
    courses: &[u32],
    common: Common,
) -> Result<(), AllocError> {
    match common {
        Common::Course => text.push_str("course ")?,
        Common::Conflicts => text.push_str("no two of ")?,
        Common::Teacher(_) | Common::Curriculum(_) | Common::Rooms => {}
    }
    put_names(text, instance, courses)?;
    match common {
        Common::Teacher(teacher) if teacher < instance.teachers() => {
            let name = Name {
                bytes: instance.teacher_name(teacher),
            };
            write!(text, " of teacher {name}")
        }
        Common::Curriculum(curriculum) if curriculum < instance.curricula() => {
            let name = Name {
                bytes: instance.curriculum_id(curriculum),
            };
            write!(text, " of curriculum {name}")
        }
        Common::Conflicts => text.push_str(" can meet at the same time; they"),
        _ => Ok(()),
    }
}

/// Appends the lectures of a shortage and the periods that are open to them.
fn put_needs(
    text: &mut String,
    instance: &Instance<'_>,
    shortage: &Shortage,
    common: Common,
) -> Result<(), AllocError> {
    let lectures = Counted(shortage.lectures, Noun::Lecture);
    let periods = Counted(shortage.slots.len() as u64, Noun::Period);
    match common {
        Common::Course => write!(text, " has {lectures} and can meet in {periods}")?,
        _ => write!(text, " have {lectures}, and together {periods}")?,
    }
    put_slots(text, instance, shortage.slots.as_slice())
}

/// Appends the places that the rooms have, and what is lacking.
fn put_lack(
    text: &mut String,
    instance: &Instance<'_>,
    shortage: &Shortage,
    common: Common,
) -> Result<(), AllocError> {
    let at_once = u64::from(shortage.contested.at_once(instance.rooms()));
    let open = (shortage.slots.len() as u64).saturating_mul(at_once);
    let lack = shortage.lectures.saturating_sub(open);
    match common {
        Common::Rooms => {
            let rooms = Counted(at_once, Noun::RoomThatHas);
            let places = Counted(open, Noun::Place);
            let lack = Counted(lack, Noun::Place);
            writeln!(text, "; {rooms} {places} there; they lack {lack}")
        }
        Common::Course => {
            let lack = Counted(lack, Noun::Period);
            writeln!(text, "; it lacks {lack}")
        }
        _ => {
            let lack = Counted(lack, Noun::Period);
            writeln!(text, "; they lack {lack}")
        }
    }
}

fn put_shortage(
    text: &mut String,
    instance: &Instance<'_>,
    shortage: &Shortage,
    common: Common,
) -> Result<(), AllocError> {
    text.push_str("can't be: ")?;
    put_courses(text, instance, shortage.courses.as_slice(), common)?;
    put_needs(text, instance, shortage, common)?;
    put_lack(text, instance, shortage, common)
}

/// Appends a line for each set of courses that is found to have more lectures than is open to it, and that no line of a whole group says
/// already. Without any one of the courses the others have enough.
pub fn put_shortages(text: &mut String, instance: &Instance<'_>) -> Result<(), AllocError> {
    let found = find_shortages(*text.allocator(), instance, MAX_FOUND)?;
    let mut lines: usize = 0;
    for shortage in &found {
        let common = common_of(instance, shortage);
        if lines == MAX_LINES {
            break;
        }
        if !is_said(instance, shortage, common) {
            put_shortage(text, instance, shortage, common)?;
            lines = lines.saturating_add(1);
        }
    }
    Ok(())
}
