//! The limits of an instance, which are the project's own, since the competition sets none; and the competition's weights.

/// The maximum number of courses.
pub const MAX_COURSES: u32 = 2048;

/// The maximum number of rooms.
pub const MAX_ROOMS: u32 = 512;

/// The maximum number of days of the week.
pub const MAX_DAYS: u32 = 64;

/// The maximum number of periods of a day.
pub const MAX_PERIODS: u32 = 64;

/// The maximum number of periods of the week.
pub const MAX_SLOTS: u32 = 512;

/// The maximum number of cells: courses times rooms times periods of the week.
pub const MAX_CELLS: u32 = 67_108_864;

/// The maximum number of curricula.
pub const MAX_CURRICULA: u32 = 8192;

/// The maximum number of members of one curriculum, including repeats.
pub const MAX_MEMBERS: u32 = 4096;

/// The maximum number of unavailability lines.
pub const MAX_UNAVAILABILITIES: u32 = 65_536;

/// The maximum number of lectures of all courses.
pub const MAX_LECTURES: u32 = 4096;

/// The maximum for the minimum of working days.
pub const MAX_MIN_DAYS: u32 = 512;

/// The maximum number of students of a course, and of seats of a room.
pub const MAX_SEATS: u32 = 1_000_000;

/// The cost of each day by which a course is below its minimum, in cost points: the competition's weight.
pub const MISSING_DAY_COST: u32 = 5;

/// The cost of an isolated entry of a curriculum, in cost points: the competition's weight.
pub const ISOLATED_COST: u32 = 2;
