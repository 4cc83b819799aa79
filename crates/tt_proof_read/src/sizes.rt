//! The numbers of courses, rooms and other things that a proof refers to by number.

use tt_instance::Instance;

/// The numbers of courses, rooms and other things that a proof refers to by number.
#[derive(Clone, Copy, Debug, Drop)]
pub struct Sizes {
    pub courses: u32,
    pub curricula: u32,
    pub rooms: u32,
    pub days: u32,
    pub periods: u32,
}

impl Sizes {
    ghost use Rattle.tt_proof_read.specs.Sizes.{AreSizes};

    /// Returns the sizes of an instance.
    pub fn of(instance: &Instance<'_>) -> Sizes
        ensures { AreSizes instance.now result }
    {
        Sizes {
            courses: instance.courses(),
            curricula: instance.curricula(),
            rooms: instance.rooms(),
            days: instance.days(),
            periods: instance.periods(),
        }
    }
}
