//! The work that a check of groups with prices may still do.

ghost use Rattle.std.specs.Prelude.{◌≡◌};

/// The maximum number of steps of the days of all groups of a file.
pub const MAX_STEPS: u64 = 134_217_728;

/// The maximum number of steps of the days of one group. A step makes at most one node of 40 bytes, so that a layer of a day takes at most
/// 640 MiB, and the slots by which its nodes are found 128 MiB.
pub const MAX_GROUP_STEPS: u64 = 16_777_216;

/// The maximum number of relaxations of all groups of a file.
pub const MAX_RELAXATIONS: u64 = 1_073_741_824;

/// The work that is left for the groups of a file.
#[derive(Clone, Copy, Debug, PartialEq, Eq)]
pub struct PricedWork {
    /// Each step of a day tries a set after some first periods.
    pub steps: u64,
    /// Each relaxation tries a day after some first days.
    pub relaxations: u64,
}

impl PricedWork {
    /// Returns the work allowed for a whole file.
    pub fn new() -> PricedWork
        ensures steps { result.steps ≡ MAX_STEPS }
        ensures relaxations { result.relaxations ≡ MAX_RELAXATIONS }
    {
        PricedWork {
            steps: MAX_STEPS,
            relaxations: MAX_RELAXATIONS,
        }
    }
}
