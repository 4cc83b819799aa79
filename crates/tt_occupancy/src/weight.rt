//! The weight of an entry.

ghost use Rattle.std.specs.Prelude.{◌*◌, ◌^◌, ◌≤◌};
ghost use Rattle.tt_instance.specs.declared.limit.TheConstants.{MAX_CURRICULA};

/// The amounts that an entry adds to each count of a list, compared with another entry of its course.
#[derive(Clone, Copy)]
pub struct Weight {
    /// 1 if its course is already taught in the period.
    pub repeats: u32,
    /// The number of entries with which it collides.
    pub against: u32,
    /// 1 if the period is unavailable.
    pub barred: u32,
    /// 1 if the room is taken in the period.
    pub shares: u32,
    /// The number of students without a seat.
    pub excess: u32,
    /// The cost of its course's days with it.
    pub days: u32,
    /// The number of curricula in which it is isolated.
    pub alone: u32,
    /// The number of isolated entries that it joins.
    pub joined: u32,
    /// The cost of its course's rooms with it.
    pub rooms: u32,
    ghost alone_few: { alone ≤ MAX_CURRICULA },
    ghost joined_few: { joined ≤ MAX_CURRICULA * (2 * 2 ^ 16) },
}
