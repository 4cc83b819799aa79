//! A place for each lecture.

use crate::choosing::best_place;
use crate::instance_data::{Course, InstanceData};
use crate::order::next_course;
use crate::place::Place;
use crate::placed::PlacedLectures;
use crate::ranking::Lecture;
use rand_pcg::Pcg32;
use std::alloc::{AllocError, Global};
use tt_instance::Instance;

/// From this round on, the demand of other courses counts before the cost.
const AHEAD: u32 = 3;

/// A place for each lecture, course by course. It may break rules.
#[derive(Drop)]
pub struct Plan {
    pub places: Vec<Place>,
    /// The number of times that each course broke a rule in the rounds so far.
    failures: Vec<u32>,
    /// The number of rounds so far.
    rounds: u32,
}

impl Plan {
    /// Returns a plan with all lectures at one place.
    pub fn new(alloc: Global, data: &InstanceData) -> Result<Plan, AllocError> {
        let nowhere = Place { room: 0, slot: 0 };
        Ok(Plan {
            places: vec![in alloc; nowhere; data.lectures]?,
            failures: vec![in alloc; 0u32; data.courses.len()]?,
            rounds: 0,
        })
    }

    /// Notes a lecture's place, while the lectures of its course after it are already placed.
    fn note(&mut self, course: &Course, left: u32, place: Place) {
        let index = course.first.saturating_add(left.saturating_sub(1) as usize);
        if let Some(there) = self.places.get_mut(index) {
            *there = place;
        }
    }

    /// Places a lecture of a course.
    fn place(
        &mut self,
        data: &InstanceData,
        placed: &mut PlacedLectures,
        number: u32,
        rng: &mut Pcg32,
    ) {
        let Some(course) = data.courses.get(number as usize) else {
            return;
        };
        let state = placed.state_of(number);
        let looks_ahead = self.rounds >= AHEAD;
        let lecture = Lecture::new(number, course, state.days, looks_ahead);
        let choice = best_place(data, placed, lecture, rng);
        if choice.rank.broken > 0
            && let Some(failures) = self.failures.get_mut(number as usize)
        {
            *failures = failures.saturating_add(1);
        }
        self.note(course, state.left, choice.place);
        placed.put(data, number, course, choice.place);
    }

    /// Places all lectures again; courses that broke rules before are placed sooner.
    pub fn renew(
        &mut self,
        alloc: Global,
        instance: &Instance<'_>,
        data: &InstanceData,
        rng: &mut Pcg32,
    ) -> Result<(), AllocError> {
        let mut placed = PlacedLectures::new(alloc, instance, data)?;
        for _ in 0..data.lectures {
            let Some(number) = next_course(data, &placed, &self.failures, rng) else {
                break;
            };
            self.place(data, &mut placed, number, rng);
        }
        self.rounds = self.rounds.saturating_add(1);
        Ok(())
    }
}
