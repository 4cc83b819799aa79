//! The eight counts of a timetable.

ghost use Rattle.std.specs.Prelude.{◌≡◌, ◌+◌, ◌^◌, ◌<◌, ◌↔◌, IsTrue};

/// The violations of the four hard rules by a timetable, and its costs by the four soft rules.
#[derive(Clone, Copy, Debug, PartialEq, Eq)]
pub struct Score {
    pub lectures: u64,
    pub conflicts: u64,
    pub availability: u64,
    pub room_occupancy: u64,
    pub room_capacity: u64,
    pub min_working_days: u64,
    pub compactness: u64,
    pub room_stability: u64,
    pub ghost hard_fits: { lectures + conflicts + availability + room_occupancy < 2 ^ 64 },
    pub ghost cost_fits: { room_capacity + min_working_days + compactness + room_stability < 2 ^ 64 },
}

impl Score {
    /// Returns the number of violations of the hard rules, 0 exactly if no hard rule is broken.
    pub fn hard(&self) -> u64
        ensures { result ≡ self.now.lectures + self.now.conflicts + self.now.availability + self.now.room_occupancy }
    {
        self.lectures + self.conflicts + self.availability + self.room_occupancy
    }

    /// Returns the total cost, in cost points.
    pub fn cost(&self) -> u64
        ensures { result ≡ self.now.room_capacity + self.now.min_working_days + self.now.compactness + self.now.room_stability }
    {
        self.room_capacity + self.min_working_days + self.compactness + self.room_stability
    }

    /// Returns whether no hard rule is broken.
    pub fn feasible(&self) -> bool
        ensures { IsTrue result ↔ (self.now.lectures + self.now.conflicts + self.now.availability + self.now.room_occupancy ≡ 0) }
    {
        self.hard() == 0
    }
}
