//! The periods to which an entry's course may move. Nothing is proved about them.

ghost use Rattle.std.specs.Prelude.{◌<◌, IfSome};
ghost use Rattle.tt_instance.specs.Cells.{InRange};

use crate::random::below;
use rand_pcg::Pcg32;
use std::alloc::{AllocError, Global};
use tt_instance::{Instance, Slot};
use tt_occupancy::Occupied;
use tt_table::Entry;

/// A period in which a course is neither taught nor barred, and in which at most one entry conflicts with it.
#[derive(Clone, Copy)]
pub struct OpenSlot {
    pub slot: Slot,
    /// Whether no entry in the period conflicts with the course.
    pub is_free: bool,
}

/// The open periods of one course.
#[derive(Drop)]
pub struct Open {
    slots: Vec<OpenSlot>,
    count: u32,
}

/// Returns a period, if it is open for a course.
fn open_slot(occupied: &Occupied<'_, '_>, entry: Entry, slot: Slot) -> Option<OpenSlot>
    requires in_range { InRange occupied.now.problem entry }
    requires day { slot.day < occupied.now.problem.days }
    requires period { slot.period < occupied.now.problem.periods }
{
    let opposing = occupied.opposing(entry.course, slot.day, slot.period);
    if opposing > 1
        || occupied.of_course(entry.course, slot.day, slot.period) > 0
        || occupied
            .instance()
            .unavailable(entry.course, slot.day, slot.period)
    {
        return None;
    }
    Some(OpenSlot {
        slot,
        is_free: opposing == 0,
    })
}

impl Open {
    /// Allocates room for all periods of an instance; none is open yet.
    pub fn new(alloc: Global, instance: &Instance<'_>) -> Result<Open, AllocError> {
        let none = OpenSlot {
            slot: Slot { day: 0, period: 0 },
            is_free: false,
        };
        let (days, periods) = (instance.days() as usize, instance.periods() as usize);
        Ok(Open {
            slots: vec![in alloc; none; days * periods]?,
            count: 0,
        })
    }

    /// Adds an open period.
    fn push(&mut self, open: OpenSlot) {
        if let Some(place) = self.slots.get_mut(self.count as usize) {
            *place = open;
            self.count = self.count.saturating_add(1);
        }
    }

    /// Adds the open periods of a day.
    fn find_on(&mut self, occupied: &Occupied<'_, '_>, entry: Entry, day: u32)
        requires in_range { InRange occupied.now.problem entry }
        requires day { day < occupied.now.problem.days }
    {
        for period in 0..occupied.instance().periods() {
            if let Some(open) = open_slot(occupied, entry, Slot { day, period }) {
                self.push(open);
            }
        }
    }

    /// Finds the open periods of an entry's course. No memory is allocated.
    pub fn find(&mut self, occupied: &Occupied<'_, '_>, entry: Entry)
        requires { InRange occupied.now.problem entry }
    {
        self.count = 0;
        for day in 0..occupied.instance().days() {
            self.find_on(occupied, entry, day);
        }
    }

    /// Returns a random one of the periods found, if there is one.
    pub fn draw(&self, instance: &Instance<'_>, rng: &mut Pcg32) -> Option<OpenSlot>
        ensures day { IfSome result (λ o. o.slot.day < instance.now.days) }
        ensures period { IfSome result (λ o. o.slot.period < instance.now.periods) }
    {
        if self.count == 0 {
            return None;
        }
        let index = below(rng, self.count) as usize;
        match self.slots.get(index) {
            Some(open)
                if open.slot.day < instance.days() && open.slot.period < instance.periods() => {
                Some(*open)
            }
            _ => None,
        }
    }
}
