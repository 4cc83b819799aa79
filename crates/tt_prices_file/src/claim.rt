//! What a file of groups with prices claims.

/// The bound of a file, and the parts of the cost for which it holds: the compactness of some curricula, the working days of some courses, and
/// if the rooms are claimed, the capacity and the stability of all rooms.
#[derive(Debug, Drop)]
pub struct PricesClaim {
    pub bound: u64,
    pub has_rooms: bool,
    pub curricula: Vec<u32>,
    pub courses: Vec<u32>,
}
