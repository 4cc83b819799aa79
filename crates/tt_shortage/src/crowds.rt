//! The sets of courses that were found to be too many.

use crate::openings::{Openings, clear_bit, word_count};
use crate::placement::find_crowd;
use crate::shortage::Contested;
use std::alloc::{AllocError, Global};

/// Courses that are too many, as marks.
#[derive(Drop)]
pub struct Crowd {
    pub members: Vec<bool>,
    pub contested: Contested,
}

/// The sets that were found, none of which contains another.
#[derive(Drop)]
pub struct Crowds {
    /// How many are looked for.
    most: usize,
    found: Vec<Crowd>,
    /// The courses that are in no set, as bits.
    free: Vec<u64>,
}

fn is_marked(members: &[bool], course: usize) -> bool {
    members.get(course).copied().unwrap_or(false)
}

/// Returns whether each course that is marked in the first list is marked in the second one.
fn is_within(inner: &[bool], outer: &[bool]) -> bool {
    for (course, member) in inner.iter().enumerate() {
        if *member && !is_marked(outer, course) {
            return false;
        }
    }
    true
}

/// Removes the marks of courses that are marked in another list.
fn take_out(members: &mut [bool], gone: &[bool]) {
    for (course, member) in members.iter_mut().enumerate() {
        if is_marked(gone, course) {
            *member = false;
        }
    }
}

/// Removes courses one by one as long as those that remain are too many; then all of them are needed.
fn shrink(
    alloc: Global,
    openings: &Openings,
    crowd: Vec<bool>,
    at_once: u32,
) -> Result<Vec<bool>, AllocError> {
    let mut order = openings.listed(alloc, &crowd)?;
    order.sort_unstable_by_key(|course| (openings.lectures(*course), *course));
    let mut members = crowd;
    for course in &order {
        let place = *course as usize;
        if !is_marked(&members, place) {
            continue;
        }
        set_mark(&mut members, place, false);
        match find_crowd(alloc, openings, &members, at_once)? {
            Some(fewer) => members = fewer,
            None => set_mark(&mut members, place, true),
        }
    }
    Ok(members)
}

/// Sets or removes the mark of a course.
pub fn set_mark(members: &mut [bool], course: usize, mark: bool) {
    if let Some(member) = members.get_mut(course) {
        *member = mark;
    }
}

impl Crowds {
    /// Creates a list without sets, which takes so many.
    pub fn none(alloc: Global, openings: &Openings, most: usize) -> Result<Crowds, AllocError> {
        Ok(Crowds {
            most,
            found: Vec::new(alloc),
            free: vec![in alloc; u64::MAX; word_count(openings.courses())]?,
        })
    }

    /// Returns the courses that are in no set, as bits.
    pub fn free(&self) -> &[u64] {
        self.free.as_slice()
    }

    fn push(&mut self, members: Vec<bool>, contested: Contested) -> Result<(), AllocError> {
        for (course, member) in members.iter().enumerate() {
            if *member {
                clear_bit(&mut self.free, course);
            }
        }
        self.found.push(Crowd { members, contested })?;
        Ok(())
    }

    /// Returns whether as many sets were found as are looked for.
    pub fn are_enough(&self) -> bool {
        self.found.len() >= self.most
    }

    /// Returns the sets in the order in which they were found.
    pub fn as_slice(&self) -> &[Crowd] {
        self.found.as_slice()
    }

    /// Removes the courses of each set of a kind that is among the marked courses.
    fn take_out_known(&self, members: &mut [bool], contested: Contested) {
        for crowd in &self.found {
            if crowd.contested == contested && is_within(&crowd.members, members) {
                take_out(members, &crowd.members);
            }
        }
    }

    /// Removes the courses of the first set that is among the courses of a new one; returns whether there is one.
    fn take_out_inner(&self, members: &mut [bool], new: &[bool]) -> bool {
        for crowd in &self.found {
            if is_within(&crowd.members, new) {
                take_out(members, &crowd.members);
                return true;
            }
        }
        false
    }

    /// Adds the sets that are found among the marked courses, no two of which have a course in common. For periods any two of the courses
    /// have to conflict.
    pub fn search(
        &mut self,
        alloc: Global,
        openings: &Openings,
        marked: Vec<bool>,
        contested: Contested,
    ) -> Result<(), AllocError> {
        let at_once = contested.at_once(openings.rooms());
        let mut members = marked;
        self.take_out_known(&mut members, contested);
        for _ in 0..openings.courses() {
            if self.are_enough() {
                break;
            }
            let Some(crowd) = find_crowd(alloc, openings, &members, at_once)? else {
                break;
            };
            let least = shrink(alloc, openings, crowd, at_once)?;
            if !self.take_out_inner(&mut members, &least) {
                take_out(&mut members, &least);
                self.push(least, contested)?;
            }
        }
        Ok(())
    }
}
