//! Facts that are drawn from a seed.

use tt_instance::Instance;
use tt_path::{Fact, Pattern, Who};

/// The numbers of courses, curricula, rooms, days and periods from which facts are drawn.
#[derive(Clone, Copy)]
pub struct Ranges {
    pub courses: u32,
    pub curricula: u32,
    pub rooms: u32,
    pub days: u32,
    pub periods: u32,
}

/// Returns the ranges of an instance, each increased by 1, so that some facts are about things that don't exist.
pub fn ranges_of(instance: &Instance<'_>) -> Ranges {
    Ranges {
        courses: instance.courses() + 1,
        curricula: instance.curricula() + 1,
        rooms: instance.rooms() + 1,
        days: instance.days() + 1,
        periods: instance.periods() + 1,
    }
}

/// A series of random numbers, the same for the same seed.
#[derive(Drop)]
pub struct Dice {
    pub state: u64,
}

impl Dice {
    /// Returns the next number, which is below 2^31.
    fn roll(&mut self) -> u64 {
        self.state = self
            .state
            .wrapping_mul(6_364_136_223_846_793_005)
            .wrapping_add(1_442_695_040_888_963_407);
        self.state >> 33
    }

    /// Returns a number below a bound; 0 if the bound is 0.
    pub fn below(&mut self, bound: u32) -> u32 {
        let rolled = self.roll();
        if bound == 0 {
            return 0;
        }
        (rolled % u64::from(bound)) as u32
    }

    /// Returns a number below a bound three times out of four, else `None`.
    fn maybe_below(&mut self, bound: u32) -> Option<u32> {
        if self.below(4) == 0 {
            return None;
        }
        Some(self.below(bound))
    }

    /// Returns a course, or one time out of four a curriculum.
    fn who(&mut self, ranges: Ranges) -> Who {
        if self.below(4) == 0 {
            Who::Curriculum(self.below(ranges.curricula))
        } else {
            Who::Course(self.below(ranges.courses))
        }
    }

    /// Returns a pattern of any kind.
    pub fn pattern(&mut self, ranges: Ranges) -> Pattern {
        Pattern {
            who: self.who(ranges),
            room: self.maybe_below(ranges.rooms),
            day: self.maybe_below(ranges.days),
            period: self.maybe_below(ranges.periods),
        }
    }

    /// Returns a fact of any kind.
    pub fn fact(&mut self, ranges: Ranges) -> Fact {
        Fact {
            pattern: self.pattern(ranges),
            holds: self.below(2) == 0,
        }
    }
}
