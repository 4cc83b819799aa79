//! Rooms for lectures whose periods are known.

use crate::instance_data::InstanceData;
use crate::periods::Periods;
use crate::place::Place;
use std::alloc::{AllocError, Global};
use tt_plans_tables::put;

/// Returns the numbers of the rooms, those with the most seats first.
fn rooms_by_seats(alloc: Global, data: &InstanceData) -> Result<Vec<u32>, AllocError> {
    let mut rooms = Vec::new(alloc);
    for room in 0..data.room_count {
        rooms.push(room)?;
    }
    rooms.sort_unstable_by_key(|room| u32::MAX - seats_of(data, *room));
    Ok(rooms)
}

/// Returns the seats of a room.
fn seats_of(data: &InstanceData, room: u32) -> u32 {
    data.seats.get(room as usize).copied().unwrap_or(0)
}

/// Returns the numbers of the courses, those with the most students first.
fn courses_by_students(alloc: Global, data: &InstanceData) -> Result<Vec<u32>, AllocError> {
    let mut courses = Vec::new(alloc);
    for course in 0..data.course_count {
        courses.push(course)?;
    }
    courses.sort_unstable_by_key(|course| u32::MAX - students_of(data, *course));
    Ok(courses)
}

/// Returns the students of a course.
fn students_of(data: &InstanceData, course: u32) -> u32 {
    match data.courses.get(course as usize) {
        Some(course) => course.students,
        None => 0,
    }
}

/// Returns places for all lectures in their periods: in each period the largest course has the largest room. Lectures for which a period has
/// no room left share the first room.
pub fn seat(
    alloc: Global,
    data: &InstanceData,
    periods: &Periods,
) -> Result<Vec<Place>, AllocError> {
    let rooms = rooms_by_seats(alloc, data)?;
    let nowhere = Place { room: 0, slot: 0 };
    let mut places = vec![in alloc; nowhere; data.lectures]?;
    let mut taken = vec![in alloc; 0usize; data.slots as usize]?;
    let courses = courses_by_students(alloc, data)?;
    for number in courses.iter() {
        let Some(course) = data.courses.get(*number as usize) else {
            continue;
        };
        for index in course.first..course.first.saturating_add(course.lectures as usize) {
            let slot = periods.held(u32::try_from(index).unwrap_or(0)).slot;
            let before = taken.get(slot).copied().unwrap_or(0);
            let room = rooms.get(before).copied().unwrap_or(0);
            let place = Place {
                room,
                slot: u32::try_from(slot).unwrap_or(0),
            };
            put(&mut places, index, place);
            put(&mut taken, slot, before.saturating_add(1));
        }
    }
    Ok(places)
}
