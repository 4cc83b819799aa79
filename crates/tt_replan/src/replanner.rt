//! The search for a plan.

use crate::board::Board;
use crate::searching::Search;
use rand_pcg::Pcg32;
use std::alloc::{AllocError, Global};
use tt_instance::Instance;
use tt_moves::Step;
use tt_occupancy::Occupied;
use tt_replan_tables::{Group, MOST_MEMBERS, MOST_ROOMS, course_count, sizes_of};

/// The maximum number of periods of a day.
const MOST_PERIODS: u32 = 15;

/// Plans the lectures of a few courses again.
#[derive(Drop)]
pub struct Replanner {
    group: Group,
    board: Board,
    search: Search,
}

/// Checks whether an instance is small enough for plans.
pub fn can_replan(instance: &Instance<'_>) -> bool {
    instance.rooms() <= MOST_ROOMS && instance.periods() <= MOST_PERIODS
}

impl Replanner {
    /// Returns a replanner without a plan. No later call allocates memory.
    pub fn new(alloc: Global, occupied: &Occupied<'_, '_>) -> Result<Replanner, AllocError> {
        let instance = occupied.instance();
        let sizes = sizes_of(instance);
        Ok(Replanner {
            group: Group::EMPTY,
            board: Board::new(alloc, instance, sizes)?,
            search: Search::new(alloc, sizes)?,
        })
    }

    /// Begins with a timetable.
    pub fn begin(&mut self, occupied: &Occupied<'_, '_>, rng: &mut Pcg32) {
        for course in 0..course_count(occupied) {
            self.board.rooms.choose_home(occupied, rng, course, 0);
        }
    }

    /// Returns the steps to the plan; none if it is the present plan.
    pub fn steps(&self) -> &[Step] {
        self.search.plan.steps()
    }

    /// Plans the group. Returns whether its tables were large enough.
    fn plan_group(&mut self, occupied: &Occupied<'_, '_>, rng: &mut Pcg32, noise: u32) -> bool {
        self.group.number();
        self.board.read(occupied, &self.group, rng, noise)
            && self.search.plan(occupied, &mut self.board, &self.group)
    }

    /// Plans a course and some that share curricula with it again. Prices have a noise of at most `noise` thousandths of a
    /// cost point. No memory is allocated.
    pub fn replan(
        &mut self,
        occupied: &Occupied<'_, '_>,
        rng: &mut Pcg32,
        course: u32,
        noise: u32,
    ) {
        self.search.plan.clear();
        self.group = Group::choose(occupied, rng, course);
        for member in self.group.members() {
            self.board
                .rooms
                .choose_home(occupied, rng, member.course, noise);
        }
        for _ in 0..MOST_MEMBERS {
            if self.group.is_empty() || self.plan_group(occupied, rng, noise) {
                return;
            }
            self.group.pop();
        }
    }
}
