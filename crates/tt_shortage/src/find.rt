//! The search for courses that have more lectures than is open to them.

ghost use Rattle.std.specs.Prelude.{length, IfOk, IfSome};
ghost use Rattle.tt_shortage.specs.Numbers.{AreNumbers};

use crate::cliques::search_cliques;
use crate::crowds::{Crowds, set_mark};
use crate::openings::Openings;
use crate::shortage::{Contested, Shortage, shortage_of};
use std::alloc::{AllocError, Global};
use tt_instance::Instance;

/// Returns the marks of one course.
fn marks_of(alloc: Global, openings: &Openings, course: u32) -> Result<Vec<bool>, AllocError> {
    let mut members = vec![in alloc; false; openings.courses()]?;
    set_mark(&mut members, course as usize, true);
    Ok(members)
}

fn search_courses(
    alloc: Global,
    openings: &Openings,
    crowds: &mut Crowds,
) -> Result<(), AllocError> {
    for course in openings.order() {
        if openings.lectures(*course) > openings.periods(*course) {
            let members = marks_of(alloc, openings, *course)?;
            crowds.search(alloc, openings, members, Contested::Periods)?;
        }
    }
    Ok(())
}

fn search_curricula(
    alloc: Global,
    instance: &Instance<'_>,
    openings: &Openings,
    crowds: &mut Crowds,
) -> Result<(), AllocError> {
    for curriculum in 0..instance.curricula() {
        let mut members = vec![in alloc; false; openings.courses()]?;
        for course in instance.members(curriculum) {
            set_mark(&mut members, *course as usize, true);
        }
        crowds.search(alloc, openings, members, Contested::Periods)?;
    }
    Ok(())
}

fn search_teachers(
    alloc: Global,
    instance: &Instance<'_>,
    openings: &Openings,
    crowds: &mut Crowds,
) -> Result<(), AllocError> {
    for teacher in 0..instance.teachers() {
        let mut members = vec![in alloc; false; openings.courses()]?;
        for course in 0..instance.courses() {
            if instance.teacher_of(course) == teacher {
                set_mark(&mut members, course as usize, true);
            }
        }
        crowds.search(alloc, openings, members, Contested::Periods)?;
    }
    Ok(())
}

/// Searches the lectures of all courses for too few places.
fn search_places(
    alloc: Global,
    openings: &Openings,
    crowds: &mut Crowds,
) -> Result<(), AllocError> {
    let members = vec![in alloc; true; openings.courses()]?;
    crowds.search(alloc, openings, members, Contested::Places)
}

/// Searches each course, each curriculum, each teacher, courses any two of which conflict, grown from each course, and last all courses for
/// rooms; returns the first sets that are found to be too many, at most so many.
fn find_crowds(alloc: Global, instance: &Instance<'_>, most: usize) -> Result<Crowds, AllocError> {
    let openings = Openings::new(alloc, instance)?;
    let mut crowds = Crowds::none(alloc, &openings, most)?;
    search_courses(alloc, &openings, &mut crowds)?;
    search_curricula(alloc, instance, &openings, &mut crowds)?;
    search_teachers(alloc, instance, &openings, &mut crowds)?;
    search_cliques(alloc, instance, &openings, &mut crowds)?;
    search_places(alloc, &openings, &mut crowds)?;
    Ok(crowds)
}

/// Returns courses that have more lectures than is open to them, if some are found: a reason why there is no timetable. In a curriculum,
/// among a teacher's courses, and among all for rooms such courses are found if there are any.
pub fn find_shortage(alloc: Global, instance: &Instance<'_>) -> Result<Option<Shortage>, AllocError>
    ensures { IfOk result (λ found. IfSome found (λ s. AreNumbers (length instance.now.courses) s.courses.items)) }
{
    let crowds = find_crowds(alloc, instance, 1)?;
    match crowds.as_slice().first() {
        Some(crowd) => shortage_of(alloc, instance, &crowd.members, crowd.contested),
        None => Ok(None),
    }
}

/// Returns sets of courses, at most so many, that have more lectures than is open to them: reasons why there is no timetable. Without any
/// one of its courses a set has enough, so none contains another; not all such sets are found. The first is that of `find_shortage`.
pub fn find_shortages(
    alloc: Global,
    instance: &Instance<'_>,
    most: usize,
) -> Result<Vec<Shortage>, AllocError> {
    let crowds = find_crowds(alloc, instance, most)?;
    let mut found = Vec::new(alloc);
    for crowd in crowds.as_slice() {
        if let Some(shortage) = shortage_of(alloc, instance, &crowd.members, crowd.contested)? {
            found.push(shortage)?;
        }
    }
    Ok(found)
}
