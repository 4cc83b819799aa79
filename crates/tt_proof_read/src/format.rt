//! The limits and the letters of the format.

/// The maximum price, in cost points.
pub const MAX_PRICE: u32 = 1_000_000;

/// The maximum bound, in cost points.
pub const MAX_POINTS: u64 = 1_000_000_000_000;

/// The maximum number of nodes of a proof.
pub const MAX_PROOF_NODES: u32 = 16_777_216;

/// The maximum number after a letter: the text of a larger one says nothing that exists.
pub const MAX_INDEX: u64 = 4_294_967_295;

/// The letter before the number of a course.
pub const COURSE_LETTER: u8 = b'c';

/// The letter before the number of a curriculum.
pub const CURRICULUM_LETTER: u8 = b'q';

/// The letter before the number of a room.
pub const ROOM_LETTER: u8 = b'r';

/// The letter before the number of a day.
pub const DAY_LETTER: u8 = b'd';

/// The letter before the number of a period.
pub const PERIOD_LETTER: u8 = b'p';
