//! What an entry may cost.

/// What an entry adds to the cost, and what it removes from it, is below this, 2^30.
pub const COST_LIMIT: u32 = 1_073_741_824;
